//! Worked listings. Each function's contract is a text and its lines, and its body is empty.

ghost use Rattle.std.specs.Prelude.{◌≡◌, [], ◌∷◌, Some, None, Ok, Err, codes};
ghost use Rattle.jsteps.specs.declared.device.DeviceKind.TheVariants.{Character, Block};
ghost use Rattle.jsteps.specs.declared.op.Op.TheVariants as op;
ghost use Rattle.jlisting.specs.Words.{decimal_of, mode_of, text_of, hex_data_of};
ghost use Rattle.jlisting.specs.Listing.{lines_of};
ghost use Rattle.jlisting.specs.Broken.{first_broken};
ghost use Rattle.jlisting.specs.declared.rule.Rule.TheVariants as rule;
ghost use Rattle.jlisting.specs.declared.rule.WordRule.TheVariants as word;
ghost use Rattle.jlisting.specs.declared.line.Action.TheVariants as action;

/// A file that is made, written, cut and written again.
#[tactic(auto, unfolding(crate::specs::Listing::lines_of, crate::specs::Listing::statement_of, crate::specs::Listing::two_operands, crate::specs::Listing::three_operands))]
pub fn file_is_listed()
    ensures { lines_of (codes "create 0644 /a\nwrite /a 0 01fF\ntruncate /a 1\nwrite /a 8 -") ≡ Ok (
        record { number = 1; action = action.Op (op.Create 0 (codes "/a") 0o644 0 0) }
        ∷ record { number = 2; action = action.Op (op.Write 0 (codes "/a") 0 (0x01 ∷ 0xFF ∷ [])) }
        ∷ record { number = 3; action = action.Op (op.Truncate 0 (codes "/a") 1) }
        ∷ record { number = 4; action = action.Op (op.Write 0 (codes "/a") 8 []) } ∷ []) }
{}

/// A removal of a name that may be gone already.
#[tactic(auto, unfolding(crate::specs::Listing::lines_of, crate::specs::Listing::statement_of, crate::specs::Listing::one_operand))]
pub fn retried_removal_is_listed()
    ensures { lines_of (codes "remove /a\nremove-if /b") ≡ Ok (
        record { number = 1; action = action.Op (op.Remove 0 (codes "/a")) }
        ∷ record { number = 2; action = action.Op (op.RemoveIf 0 (codes "/b")) } ∷ []) }
{}

/// Settings hold for the lines after them.
#[tactic(auto, unfolding(crate::specs::Listing::lines_of, crate::specs::Listing::statement_of, crate::specs::Listing::one_operand, crate::specs::Listing::two_operands))]
pub fn settings_are_listed()
    ensures { lines_of (codes "mkdir 0 /a\n# later\n\ntime 5\nowner 1 65535\nmkdir 777 /b\n") ≡ Ok (
        record { number = 1; action = action.Op (op.Mkdir 0 (codes "/a") 0 0 0) }
        ∷ record { number = 6; action = action.Op (op.Mkdir 5 (codes "/b") 0o777 1 65535) } ∷ []) }
{}

/// Devices, with their numbers at the limits and past them.
#[tactic(auto, unfolding(crate::specs::Listing::lines_of, crate::specs::Listing::statement_of, crate::specs::Listing::five_operands))]
pub fn devices_are_listed()
    ensures listed { lines_of (codes "device c 600 5 1 /c\ndevice b 0640 4095 1048575 /b") ≡ Ok (
        record { number = 1; action = action.Device 0 (codes "/c") Character 0o600 0 0 5 1 }
        ∷ record { number = 2; action = action.Device 0 (codes "/b") Block 0o640 0 0 4095 1048575 }
        ∷ []) }
    ensures major { lines_of (codes "device c 600 4096 1 /c") ≡ Err 1 }
    ensures minor { lines_of (codes "device c 600 5 1048576 /c") ≡ Err 1 }
    ensures other { lines_of (codes "device p 600 5 1 /c") ≡ Err 1 }
{}

/// Two spaces, a space at the end, and a carriage return.
#[tactic(auto, unfolding(crate::specs::Listing::lines_of, crate::specs::Listing::statement_of, crate::specs::Listing::one_operand, crate::specs::Listing::two_operands, crate::specs::Listing::three_operands))]
pub fn wrong_lines_are_found()
    ensures two_spaces { lines_of (codes "# a\n\ncreate  0644 /a") ≡ Err 3 }
    ensures at_the_end { lines_of (codes "remove /a\nremove /b \n") ≡ Err 2 }
    ensures carriage_return { lines_of (codes "remove /a\n\r\n") ≡ Err 2 }
    ensures indented { lines_of (codes " # a") ≡ Err 1 }
    ensures nothing { lines_of [] ≡ Ok [] }
{}

/// Numbers at their limits, and past them.
pub fn numbers_are_read()
    ensures greatest { decimal_of 4294967295 (codes "4294967295") ≡ Some 4294967295 }
    ensures past_greatest { decimal_of 4294967295 (codes "4294967296") ≡ None }
    ensures zeros { decimal_of 65535 (codes "0000065535") ≡ Some 65535 }
    ensures eleven_digits { decimal_of 65535 (codes "00000065535") ≡ None }
    ensures no_digits { decimal_of 65535 [] ≡ None }
    ensures mode { mode_of (codes "777777") ≡ Some 0o777777 }
    ensures long_mode { mode_of (codes "0000644") ≡ None }
    ensures decimal_mode { mode_of (codes "8") ≡ None }
{}

/// Bytes that are escaped, and bytes that are written.
pub fn bytes_are_read()
    ensures escapes { text_of (codes "a\\x2F\\x00\\xff") ≡ Some (97 ∷ 47 ∷ 0 ∷ 255 ∷ []) }
    ensures capital { text_of (codes "\\X2f") ≡ None }
    ensures short { text_of (codes "a\\x2") ≡ None }
    ensures double { text_of (codes "\\\\") ≡ None }
    ensures data { hex_data_of (codes "00aF") ≡ Some (0x00 ∷ 0xAF ∷ []) }
    ensures odd { hex_data_of (codes "00a") ≡ None }
    ensures no_data { hex_data_of (codes "-") ≡ Some [] }
    ensures empty { hex_data_of [] ≡ None }
{}

/// Spaces too many, another first word, and words too few or too many.
#[tactic(auto, unfolding(crate::specs::Broken::first_broken, crate::specs::Broken::operands_of, crate::specs::Broken::operation_operands, crate::specs::Broken::shape_rule, crate::specs::Broken::word_rule, crate::specs::Broken::operand_rule, crate::specs::Broken::number_rule, crate::specs::Broken::escape_rule, crate::specs::Broken::data_rule, crate::specs::Broken::kind_rule))]
pub fn shapes_are_judged()
    ensures comment { first_broken (codes "#  a ") ≡ None }
    ensures start { first_broken (codes " remove /a") ≡ Some rule.SpaceAtStart }
    ensures two { first_broken (codes "remove  /a ") ≡ Some rule.TwoSpaces }
    ensures end { first_broken (codes "remov ") ≡ Some rule.SpaceAtEnd }
    ensures carriage_return { first_broken (codes "time 1\r") ≡ Some rule.CarriageReturn }
    ensures text { first_broken (codes "remove /a\r") ≡ None }
    ensures name { first_broken (codes "Remove /a") ≡ Some rule.NoOperation }
    ensures few { first_broken (codes "mkdir 9") ≡ Some (rule.TooFew 2) }
    ensures many { first_broken (codes "mkdir 9 /a b") ≡ Some (rule.TooMany 2) }
{}

/// Words that break a rule, the first of them.
#[tactic(auto, unfolding(crate::specs::Broken::first_broken, crate::specs::Broken::operands_of, crate::specs::Broken::operation_operands, crate::specs::Broken::shape_rule, crate::specs::Broken::word_rule, crate::specs::Broken::operand_rule, crate::specs::Broken::number_rule, crate::specs::Broken::escape_rule, crate::specs::Broken::data_rule, crate::specs::Broken::kind_rule))]
pub fn words_are_judged()
    ensures digit { first_broken (codes "owner 6553x 65536") ≡ Some (rule.Word 2 (word.NoDigit 9)) }
    ensures octal { first_broken (codes "mkdir 8 \\") ≡ Some (rule.Word 2 (word.NoDigit 7)) }
    ensures long { first_broken (codes "mkdir 0000755 /a") ≡ Some (rule.Word 2 (word.TooLong 6)) }
    ensures above { first_broken (codes "owner 0 65536") ≡ Some (rule.Word 3 (word.Above 65535)) }
    ensures kind { first_broken (codes "device p 8 5 1 /a") ≡ Some (rule.Word 2 word.Kind) }
    ensures escape { first_broken (codes "link /a /\\X61") ≡ Some (rule.Word 3 word.Escape) }
    ensures pairs { first_broken (codes "write /a 0 abc") ≡ Some (rule.Word 4 word.NoPairs) }
{}
