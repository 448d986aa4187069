//! Worked examples of the definitions that the contracts cite.
ghost use Rattle.std.specs.Prelude.{◌≡◌, true, false, List, [], ◌∷◌, Some, None, codes, option_and_then, option_map};
ghost use Rattle.clap.specs.Words.{Text, fault_of};
ghost use Rattle.clap.specs.declared.error.ErrorKind.TheVariants.{ArgumentConflict, DisplayHelp, DisplayVersion, MissingSubcommand, MissingRequiredArgument, UnknownArgument, WrongNumberOfValues};
ghost use Rattle.jnode.specs.declared.order.Endian.TheVariants.{Little, Big};
ghost use Rattle.jcommand.specs.Worked.{b_of_a, c_of_a, cuts_of_a, folder_a, no_options, through_of_a, tree_of_a, two_blocks};
ghost use Rattle.jcommand.specs.Parsed.{options_of, parsed_from, endian_of, decimal_number, owner_of, page_of};
ghost use Rattle.jscan.specs.declared.page.Page.TheVariants.{P4096, P8192, P16384};
ghost use Rattle.jcommand.specs.Commands.{program};
ghost use Rattle.jcommand.specs.Sizes.{size_number};
ghost use Rattle.jcommand.specs.declared.parsed.Command.TheVariants as command;
ghost use Rattle.jcommand.specs.declared.request.Request.{Request};
ghost use Rattle.jcommand.specs.Regions.{layout_of, length_of, region_by};
ghost use Rattle.jcommand.specs.Requests.{auto_from, file_made, has_region_from, images_read, json_from, region_from, request_from};

/// The values of options.
pub fn known_values()
    ensures block { decimal_number (codes "65536") ≡ Some 65536 }
    ensures greatest { decimal_number (codes "4294967295") ≡ Some 4294967295 }
    ensures past_greatest { decimal_number (codes "4294967296") ≡ None }
    ensures signed { decimal_number (codes "+1") ≡ None }
    ensures empty { decimal_number [] ≡ None }
    ensures kibibytes { size_number (codes "128KiB") ≡ Some 131072 }
    ensures mebibytes { size_number (codes "4M") ≡ Some 4194304 }
    ensures hexadecimal { size_number (codes "0x2000a") ≡ Some 131082 }
    ensures plain_size { size_number (codes "4096") ≡ Some 4096 }
    ensures past_greatest_size { size_number (codes "4096MiB") ≡ None }
    ensures no_digits { size_number (codes "K") ≡ None }
    ensures no_unit { size_number (codes "4Kb") ≡ None }
    ensures little { endian_of (codes "little") ≡ Some Little }
    ensures big { endian_of (codes "big") ≡ Some Big }
    ensures other { endian_of (codes "middle") ≡ None }
    ensures page { page_of (codes "8192") ≡ Some P8192 }
    ensures padded_page { page_of (codes "08192") ≡ None }
    ensures other_page { page_of (codes "32768") ≡ None }
    ensures owner { owner_of (codes "1000" ∷ codes "65535" ∷ [])
        ≡ Some (record { uid = 1000; gid = 65535 }) }
    ensures past_owner { owner_of (codes "0" ∷ codes "65536" ∷ []) ≡ None }
{}

/// What words ask for.
pub fn known_requests()
    ensures defaults { parsed_from (codes "jffs2_image" ∷ codes "check" ∷ codes "--scan" ∷ codes "a"
        ∷ [])
        ≡ Some (command.Scan (record { options = no_options; image = codes "a" })) }
    ensures given { parsed_from (codes "jffs2_image" ∷ codes "check" ∷ codes "--block"
        ∷ codes "4096" ∷ codes "--endian=big" ∷ codes "a" ∷ [])
        ≡ Some (command.Check (record {
          options = options_of 4096 Big;
          shape = false;
          image = codes "a";
        })) }
    ensures shape { parsed_from (codes "jffs2_image" ∷ codes "check" ∷ codes "--shape" ∷ codes "a"
        ∷ [])
        ≡ Some (command.Check (record { options = no_options; shape = true; image = codes "a" })) }
    ensures through { parsed_from (codes "jffs2_image" ∷ codes "check" ∷ codes "--decompress"
        ∷ codes "--endian=big" ∷ codes "a" ∷ [])
        ≡ Some (command.CheckThrough (record {
          options = options_of 65536 Big;
          shape = false;
          image = codes "a";
        })) }
    ensures through_with_shape { parsed_from (codes "jffs2_image" ∷ codes "check" ∷ codes "--shape"
        ∷ codes "a" ∷ codes "--decompress" ∷ [])
        ≡ Some (command.CheckThrough (record {
          options = no_options;
          shape = true;
          image = codes "a";
        })) }
    ensures scanned_alone { parsed_from (codes "jffs2_image" ∷ codes "check"
        ∷ codes "--decompress" ∷ codes "--scan" ∷ codes "--block=8192" ∷ codes "a" ∷ [])
        ≡ Some (command.Scan (record { options = options_of 8192 Little; image = codes "a" })) }
    ensures tree { parsed_from (codes "jffs2_image" ∷ codes "ls" ∷ codes "a" ∷ codes "--block=8192"
        ∷ [])
        ≡ Some (command.List (record {
          options = options_of 8192 Little;
          decompress = false;
          image = codes "a";
          path = None;
        })) }
    ensures decompressed_tree { parsed_from (codes "jffs2_image" ∷ codes "ls" ∷ codes "--decompress"
        ∷ codes "a" ∷ codes "/b" ∷ [])
        ≡ Some (command.List (record {
          options = no_options;
          decompress = true;
          image = codes "a";
          path = Some (codes "/b");
        })) }
    ensures content { parsed_from (codes "jffs2_image" ∷ codes "cat" ∷ codes "a" ∷ codes "/b" ∷ [])
        ≡ Some (command.Cat (record {
          options = no_options;
          decompress = false;
          strict = false;
          image = codes "a";
          path = codes "/b";
        })) }
    ensures strict_content { parsed_from (codes "jffs2_image" ∷ codes "cat" ∷ codes "--strict"
        ∷ codes "a" ∷ codes "/b" ∷ [])
        ≡ Some (command.Cat (record {
          options = no_options;
          decompress = false;
          strict = true;
          image = codes "a";
          path = codes "/b";
        })) }
    ensures revision { parsed_from (codes "jffs2_image" ∷ codes "cat" ∷ codes "a"
        ∷ codes "--ino=7" ∷ codes "--upto" ∷ codes "3" ∷ [])
        ≡ Some (command.CatInode (record {
          options = no_options;
          image = codes "a";
          ino = 7;
          version = 3;
        })) }
    ensures newest { parsed_from (codes "jffs2_image" ∷ codes "cat" ∷ codes "a"
        ∷ codes "--ino=7" ∷ [])
        ≡ Some (command.CatInode (record {
          options = no_options;
          image = codes "a";
          ino = 7;
          version = 4294967295;
        })) }
    ensures made { parsed_from (codes "jffs2_image" ∷ codes "build" ∷ codes "--blocks" ∷ codes "2"
        ∷ codes "a" ∷ codes "b" ∷ [])
        ≡ Some (command.Build (record { target = two_blocks; listing = codes "a" })) }
    ensures made_compressed { parsed_from (codes "jffs2_image" ∷ codes "build" ∷ codes "--compress"
        ∷ codes "--blocks" ∷ codes "2" ∷ codes "a" ∷ codes "b" ∷ [])
        ≡ Some (command.BuildCompressed (record { target = two_blocks; listing = codes "a" })) }
    ensures extended { parsed_from (codes "jffs2_image" ∷ codes "append" ∷ codes "a"
        ∷ codes "--block" ∷ codes "8192" ∷ codes "b" ∷ codes "--endian=big" ∷ codes "--page=16384"
        ∷ codes "c" ∷ codes "--blocks=3" ∷ [])
        ≡ Some (command.Append (record {
          target = record two_blocks {
            options = options_of 8192 Big;
            blocks = 3;
            page = P16384;
            output = codes "c";
          };
          decompress = false;
          force = false;
          image = codes "a";
          listing = codes "b";
        })) }
    ensures noted { parsed_from (codes "jffs2_image" ∷ codes "build" ∷ codes "--weak"
        ∷ codes "--blocks=2" ∷ codes "a" ∷ codes "b" ∷ [])
        ≡ Some (command.Build (record {
          target = record two_blocks { weak = true };
          listing = codes "a";
        })) }
    ensures extended_and_noted { parsed_from (codes "jffs2_image" ∷ codes "append" ∷ codes "a"
        ∷ codes "b" ∷ codes "--decompress" ∷ codes "c" ∷ codes "--weak" ∷ codes "--blocks=2"
        ∷ codes "--force" ∷ [])
        ≡ Some (command.Append (record {
          target = record two_blocks {
            weak = true;
            output = codes "c";
          };
          decompress = true;
          force = true;
          image = codes "a";
          listing = codes "b";
        })) }
    ensures updated { parsed_from (codes "jffs2_image" ∷ codes "update" ∷ codes "a" ∷ codes "b"
        ∷ codes "c" ∷ [])
        ≡ Some (command.Update c_of_a) }
    ensures updated_plainly { parsed_from (codes "jffs2_image" ∷ codes "update" ∷ codes "--plain"
        ∷ codes "a" ∷ codes "--blocks=3" ∷ codes "b" ∷ codes "--block" ∷ codes "8192" ∷ codes "c"
        ∷ [])
        ≡ Some (command.Update (record c_of_a {
          options = options_of 8192 Little;
          blocks = Some 3;
          plain = true;
        })) }
    ensures updated_in_rests { parsed_from (codes "jffs2_image" ∷ codes "update" ∷ codes "a"
        ∷ codes "b" ∷ codes "--tail" ∷ codes "--page=16384" ∷ codes "--endian=big" ∷ codes "c"
        ∷ [])
        ≡ Some (command.Update (record c_of_a {
          options = options_of 65536 Big;
          page = P16384;
          tail = true;
        })) }
    ensures decompressed { parsed_from (codes "jffs2_image" ∷ codes "decompress"
        ∷ codes "--block=8192" ∷ codes "a" ∷ codes "b" ∷ [])
        ≡ Some (command.Decompress (record b_of_a { options = options_of 8192 Little })) }
    ensures apart { parsed_from (codes "jffs2_image" ∷ codes "decompress" ∷ codes "a"
        ∷ codes "--clashes" ∷ codes "higher" ∷ codes "b" ∷ [])
        ≡ Some (command.Apart b_of_a) }
    ensures extracted { parsed_from (codes "jffs2_image" ∷ codes "extract" ∷ codes "--owners"
        ∷ codes "a" ∷ codes "b" ∷ [])
        ≡ Some (command.Extract (record tree_of_a { owners = true })) }
    ensures extracted_part { parsed_from (codes "jffs2_image" ∷ codes "extract" ∷ codes "a"
        ∷ codes "--quiet" ∷ codes "b" ∷ codes "/c" ∷ [])
        ≡ Some (command.Extract (record tree_of_a { quiet = true; path = Some (codes "/c") })) }
    ensures extracted_deleted { parsed_from (codes "jffs2_image" ∷ codes "extract"
        ∷ codes "--deleted" ∷ codes "a" ∷ codes "b" ∷ [])
        ≡ Some (command.Extract (record tree_of_a { deleted = true })) }
    ensures listed { parsed_from (codes "jffs2_image" ∷ codes "listing" ∷ codes "--quiet"
        ∷ codes "a" ∷ [])
        ≡ Some (command.Listing (record {
          owner = None;
          time = None;
          quiet = true;
          folder = codes "a";
        })) }
    ensures listed_for { parsed_from (codes "jffs2_image" ∷ codes "listing" ∷ codes "--owner"
        ∷ codes "0" ∷ codes "7" ∷ codes "--time=9" ∷ codes "a" ∷ [])
        ≡ Some (command.Listing (record {
          owner = Some (record { uid = 0; gid = 7 });
          time = Some 9;
          quiet = false;
          folder = codes "a";
        })) }
    ensures told { parsed_from (codes "jffs2_image" ∷ codes "info" ∷ codes "a" ∷ [])
        ≡ Some (command.Info (codes "a")) }
    ensures cut { parsed_from (codes "jffs2_image" ∷ codes "cuts" ∷ codes "--on=b"
        ∷ codes "--blocks" ∷ codes "2" ∷ codes "a" ∷ [])
        ≡ Some (command.Cuts (record cuts_of_a { on = Some (codes "b") })) }
    ensures cut_alone { parsed_from (codes "jffs2_image" ∷ codes "cuts" ∷ codes "--page=8192"
        ∷ codes "--blocks=2" ∷ codes "a" ∷ [])
        ≡ Some (command.Cuts (record cuts_of_a { page = P8192 })) }
    ensures cut_through { parsed_from (codes "jffs2_image" ∷ codes "cuts" ∷ codes "--decompress"
        ∷ codes "--on=b" ∷ codes "--blocks=2" ∷ codes "a" ∷ [])
        ≡ Some (command.CutsThrough (record through_of_a { on = Some (codes "b") })) }
    ensures cut_compressed { parsed_from (codes "jffs2_image" ∷ codes "cuts" ∷ codes "--blocks=2"
        ∷ codes "--page=8192" ∷ codes "a" ∷ codes "--compress" ∷ [])
        ≡ Some (command.CutsThrough (record through_of_a { page = P8192; compress = true })) }
    ensures cut_update { parsed_from (codes "jffs2_image" ∷ codes "cuts" ∷ codes "--update"
        ∷ codes "--on=b" ∷ codes "--tail" ∷ codes "a" ∷ [])
        ≡ Some (command.CutsUpdate (record {
          options = no_options;
          blocks = None;
          page = P4096;
          plain = false;
          tail = true;
          image = codes "b";
          listing = codes "a";
        })) }
    ensures compressed { parsed_from (codes "jffs2_image" ∷ codes "compress" ∷ codes "a"
        ∷ codes "--endian=big" ∷ codes "b" ∷ [])
        ≡ Some (command.Compress (record b_of_a { options = options_of 65536 Big })) }
    ensures compressed_over { parsed_from (codes "jffs2_image" ∷ codes "compress" ∷ codes "--force"
        ∷ codes "a" ∷ codes "a" ∷ [])
        ≡ Some (command.Compress (record b_of_a { force = true; output = codes "a" })) }
    ensures compacted { parsed_from (codes "jffs2_image" ∷ codes "compact" ∷ codes "--blocks=2"
        ∷ codes "a" ∷ codes "b" ∷ codes "--force" ∷ [])
        ≡ Some (command.Compact (record {
          conversion = record b_of_a { force = true };
          blocks = Some
              2;
        })) }
    ensures compacted_apart { parsed_from (codes "jffs2_image" ∷ codes "compact" ∷ codes "a"
        ∷ codes "--clashes=higher" ∷ codes "b" ∷ [])
        ≡ Some (command.CompactApart (record { conversion = b_of_a; blocks = None })) }
    ensures compared { parsed_from (codes "jffs2_image" ∷ codes "diff" ∷ codes "a"
        ∷ codes "--block=8192" ∷ codes "b" ∷ [])
        ≡ Some (command.Diff (record {
          options = options_of 8192 Little;
          decompress = false;
          times = false;
          first = codes "a";
          second = codes "b";
        })) }
    ensures compared_with_times { parsed_from (codes "jffs2_image" ∷ codes "diff" ∷ codes "--times"
        ∷ codes "--endian=big" ∷ codes "a" ∷ codes "b" ∷ [])
        ≡ Some (command.Diff (record {
          options = options_of 65536 Big;
          decompress = false;
          times = true;
          first = codes "a";
          second = codes "b";
        })) }
    ensures compared_decompressed { parsed_from (codes "jffs2_image" ∷ codes "diff"
        ∷ codes "--decompress" ∷ codes "a" ∷ codes "b" ∷ [])
        ≡ Some (command.Diff (record {
          options = no_options;
          decompress = true;
          times = false;
          first = codes "a";
          second = codes "b";
        })) }
    ensures damaged { parsed_from (codes "jffs2_image" ∷ codes "damage" ∷ codes "--block=8192"
        ∷ codes "a" ∷ [])
        ≡ Some (command.Damage (record {
          options = options_of 8192 Little;
          decompress = false;
          image = codes "a";
        })) }
    ensures damaged_decompressed { parsed_from (codes "jffs2_image" ∷ codes "damage" ∷ codes "a"
        ∷ codes "--decompress" ∷ [])
        ≡ Some (command.Damage (record {
          options = no_options;
          decompress = true;
          image = codes "a";
        })) }
    ensures mapped { parsed_from (codes "jffs2_image" ∷ codes "map" ∷ codes "--block=8192"
        ∷ codes "a" ∷ [])
        ≡ Some (command.Map (record {
          options = options_of 8192 Little;
          svg = false;
          image = codes "a";
        })) }
    ensures by_letters { parsed_from (codes "jffs2_image" ∷ codes "map" ∷ codes "-e"
        ∷ codes "128KiB" ∷ codes "-b" ∷ codes "a" ∷ [])
        ≡ Some (command.Map (record {
          options = options_of 131072 Big;
          svg = false;
          image = codes "a";
        })) }
    ensures by_long_names { parsed_from (codes "jffs2_image" ∷ codes "map"
        ∷ codes "--eraseblock=0x2000" ∷ codes "a" ∷ codes "--little-endian" ∷ [])
        ≡ Some (command.Map (record {
          options = options_of 8192 Little;
          svg = false;
          image = codes "a";
        })) }
    ensures drawn { parsed_from (codes "jffs2_image" ∷ codes "map" ∷ codes "a" ∷ codes "--svg"
        ∷ codes "--endian" ∷ codes "big" ∷ [])
        ≡ Some (command.Map (record {
          options = options_of 65536 Big;
          svg = true;
          image = codes "a";
        })) }
    ensures traced { parsed_from (codes "jffs2_image" ∷ codes "history" ∷ codes "--block=8192"
        ∷ codes "a" ∷ [])
        ≡ Some (command.History (record {
          options = options_of 8192 Little;
          since = None;
          until = None;
          image = codes "a";
          path = None;
        })) }
    ensures traced_path { parsed_from (codes "jffs2_image" ∷ codes "history" ∷ codes "-b"
        ∷ codes "a" ∷ codes "--until=9" ∷ codes "/b" ∷ codes "--since" ∷ codes "7" ∷ [])
        ≡ Some (command.History (record {
          options = options_of 65536 Big;
          since = Some 7;
          until = Some 9;
          image = codes "a";
          path = Some (codes "/b");
        })) }
    ensures packed { parsed_from (codes "jffs2_image" ∷ codes "pack" ∷ codes "a" ∷ codes "b" ∷ [])
        ≡ Some (command.Pack folder_a) }
    ensures packed_compressed { parsed_from (codes "jffs2_image" ∷ codes "pack" ∷ codes "a"
        ∷ codes "--compress" ∷ codes "b" ∷ [])
        ≡ Some (command.PackCompressed folder_a) }
    ensures verified { parsed_from (codes "jffs2_image" ∷ codes "verify" ∷ codes "--owner"
        ∷ codes "0" ∷ codes "7" ∷ codes "a" ∷ codes "--times" ∷ codes "--block=8192" ∷ codes "b"
        ∷ [])
        ≡ Some (command.Verify (record {
          options = options_of 8192 Little;
          times = true;
          owner = Some (record { uid = 0; gid = 7 });
          time = None;
          quiet = false;
          image = codes "a";
          folder = codes "b";
        })) }
    ensures packed_for { parsed_from (codes "jffs2_image" ∷ codes "pack" ∷ codes "--owner"
        ∷ codes "0" ∷ codes "7" ∷ codes "--time=9" ∷ codes "--weak" ∷ codes "--blocks=2" ∷ codes "a"
        ∷ codes "b" ∷ [])
        ≡ Some (command.Pack (record folder_a {
          blocks = Some 2;
          weak = true;
          owner = Some
              (record { uid = 0; gid = 7 });
          time = Some 9;
        })) }
{}

/// What words ask for of the file that is written.
pub fn known_placings()
    ensures padded { parsed_from (codes "jffs2_image" ∷ codes "append" ∷ codes "--blocks=2"
        ∷ codes "--pad" ∷ codes "a" ∷ codes "b" ∷ codes "c" ∷ [])
        ≡ Some (command.Append (record {
          target = record two_blocks {
            placing = record {
              pad = true;
              atomic = false;
            };
            output = codes "c";
          };
          decompress = false;
          force = false;
          image = codes "a";
          listing = codes "b";
        })) }
    ensures apart { parsed_from (codes "jffs2_image" ∷ codes "decompress" ∷ codes "--atomic"
        ∷ codes "a" ∷ codes "b" ∷ [])
        ≡ Some (command.Decompress (record b_of_a {
          placing = record {
            pad = false;
            atomic = true;
          };
        })) }
    ensures compacted { parsed_from (codes "jffs2_image" ∷ codes "compact" ∷ codes "a" ∷ codes "b"
        ∷ codes "--pad" ∷ codes "--atomic" ∷ [])
        ≡ Some (command.Compact (record {
          conversion = record b_of_a {
            placing = record { pad = true; atomic = true };
          };
          blocks = None;
        })) }
    ensures updated { parsed_from (codes "jffs2_image" ∷ codes "update" ∷ codes "a" ∷ codes "b"
        ∷ codes "--pad" ∷ codes "c" ∷ [])
        ≡ Some (command.Update (record c_of_a {
          placing = record { pad = true; atomic = false };
        })) }
    ensures updated_in_place { parsed_from (codes "jffs2_image" ∷ codes "update" ∷ codes "--atomic"
        ∷ codes "a" ∷ codes "b" ∷ codes "a" ∷ [])
        ≡ Some (command.Update (record c_of_a {
          placing = record { pad = false; atomic = true };
          output = codes "a";
        })) }
    ensures both { parsed_from (codes "jffs2_image" ∷ codes "pack" ∷ codes "a" ∷ codes "--pad"
        ∷ codes "b" ∷ codes "--atomic" ∷ [])
        ≡ Some (command.Pack (record folder_a { placing = record { pad = true; atomic = true } })) }
    ensures by_letters { parsed_from (codes "jffs2_image" ∷ codes "update" ∷ codes "-o"
        ∷ codes "c" ∷ codes "-p" ∷ codes "a" ∷ codes "b" ∷ [])
        ≡ Some (command.Update (record c_of_a {
          placing = record { pad = true; atomic = false };
        })) }
    ensures by_name { parsed_from (codes "jffs2_image" ∷ codes "compress" ∷ codes "--output=b"
        ∷ codes "a" ∷ [])
        ≡ Some (command.Compress b_of_a) }
{}

/// Words that ask for nothing.
pub fn known_refusals()
    ensures help { fault_of program (codes "jffs2_image" ∷ codes "check" ∷ codes "--help" ∷ [])
        ≡ DisplayHelp ∷ [] }
    ensures version { fault_of program (codes "jffs2_image" ∷ codes "--version" ∷ [])
        ≡ DisplayVersion ∷ [] }
    ensures no_args { fault_of program [] ≡ MissingSubcommand ∷ [] }
    ensures no_image { fault_of program (codes "jffs2_image" ∷ codes "ls" ∷ [])
        ≡ MissingRequiredArgument ∷ [] }
    ensures not_of_ls { fault_of program
        (codes "jffs2_image" ∷ codes "ls" ∷ codes "--scan" ∷ codes "a" ∷ [])
        ≡ UnknownArgument ∷ [] }
    ensures no_path { parsed_from (codes "jffs2_image" ∷ codes "cat" ∷ codes "a" ∷ []) ≡ None }
    ensures path_and_inode { parsed_from (codes "jffs2_image" ∷ codes "cat" ∷ codes "--ino=2"
        ∷ codes "a" ∷ codes "/b" ∷ []) ≡ None }
    ensures version_alone { parsed_from (codes "jffs2_image" ∷ codes "cat" ∷ codes "--upto=2"
        ∷ codes "a" ∷ []) ≡ None }
    ensures no_blocks { fault_of program (codes "jffs2_image" ∷ codes "build" ∷ codes "a"
        ∷ codes "b" ∷ []) ≡ MissingRequiredArgument ∷ [] }
    ensures no_output { parsed_from (codes "jffs2_image" ∷ codes "append" ∷ codes "--blocks"
        ∷ codes "2" ∷ codes "a" ∷ codes "b" ∷ []) ≡ None }
    ensures two_outputs { parsed_from (codes "jffs2_image" ∷ codes "compress" ∷ codes "a"
        ∷ codes "b" ∷ codes "-o" ∷ codes "c" ∷ []) ≡ None }
    ensures not_of_cat { fault_of program
        (codes "jffs2_image" ∷ codes "cat" ∷ codes "--blocks=2" ∷ codes "a" ∷ codes "/b" ∷ [])
        ≡ UnknownArgument ∷ [] }
    ensures one_owner { fault_of program (codes "jffs2_image" ∷ codes "listing" ∷ codes "a"
        ∷ codes "--owner" ∷ codes "1" ∷ []) ≡ WrongNumberOfValues ∷ [] }
    ensures not_of_check { fault_of program (codes "jffs2_image" ∷ codes "check"
        ∷ codes "--times" ∷ codes "a" ∷ []) ≡ UnknownArgument ∷ [] }
    ensures not_of_map { fault_of program (codes "jffs2_image" ∷ codes "map"
        ∷ codes "--decompress" ∷ codes "a" ∷ []) ≡ UnknownArgument ∷ [] }
    ensures not_mapped { fault_of program (codes "jffs2_image" ∷ codes "map" ∷ codes "--svg" ∷ [])
        ≡ MissingRequiredArgument ∷ [] }
    ensures not_of_history { fault_of program (codes "jffs2_image" ∷ codes "history"
        ∷ codes "--decompress" ∷ codes "a" ∷ []) ≡ UnknownArgument ∷ [] }
    ensures no_since { parsed_from (codes "jffs2_image" ∷ codes "history" ∷ codes "--since=x"
        ∷ codes "a" ∷ []) ≡ None }
    ensures deleted_part { parsed_from (codes "jffs2_image" ∷ codes "extract"
        ∷ codes "--deleted" ∷ codes "a" ∷ codes "b" ∷ codes "/c" ∷ []) ≡ None }
    ensures not_of_update { fault_of program (codes "jffs2_image" ∷ codes "update"
        ∷ codes "--weak" ∷ codes "a" ∷ codes "b" ∷ codes "c" ∷ []) ≡ UnknownArgument ∷ [] }
    ensures not_updated { parsed_from (codes "jffs2_image" ∷ codes "update" ∷ codes "a"
        ∷ codes "b" ∷ []) ≡ None }
    ensures not_decompressed { parsed_from
        (codes "jffs2_image" ∷ codes "decompress" ∷ codes "a" ∷ []) ≡ None }
    ensures not_compressed { parsed_from
        (codes "jffs2_image" ∷ codes "compress" ∷ codes "a" ∷ []) ≡ None }
    ensures not_of_info { fault_of program (codes "jffs2_image" ∷ codes "info"
        ∷ codes "--block=4096" ∷ codes "a" ∷ []) ≡ UnknownArgument ∷ [] }
    ensures no_flash { parsed_from (codes "jffs2_image" ∷ codes "cuts" ∷ codes "a" ∷ []) ≡ None }
    ensures not_on_image { parsed_from (codes "jffs2_image" ∷ codes "cuts" ∷ codes "--update"
        ∷ codes "--blocks=2" ∷ codes "a" ∷ []) ≡ None }
    ensures always_compressed { parsed_from (codes "jffs2_image" ∷ codes "cuts"
        ∷ codes "--update" ∷ codes "--on=b" ∷ codes "--compress" ∷ codes "a" ∷ []) ≡ None }
    ensures always_decompressed { parsed_from (codes "jffs2_image" ∷ codes "cuts"
        ∷ codes "--update" ∷ codes "--on=b" ∷ codes "--decompress" ∷ codes "a" ∷ []) ≡ None }
    ensures no_update { parsed_from (codes "jffs2_image" ∷ codes "cuts" ∷ codes "--on=b"
        ∷ codes "--blocks=2" ∷ codes "--tail" ∷ codes "a" ∷ []) ≡ None }
    ensures no_plain { parsed_from (codes "jffs2_image" ∷ codes "cuts" ∷ codes "--plain"
        ∷ codes "--blocks=2" ∷ codes "a" ∷ []) ≡ None }
    ensures not_noted { fault_of program (codes "jffs2_image" ∷ codes "cuts" ∷ codes "--weak"
        ∷ codes "--blocks=2" ∷ codes "a" ∷ []) ≡ UnknownArgument ∷ [] }
    ensures no_second { fault_of program (codes "jffs2_image" ∷ codes "diff" ∷ codes "a" ∷ [])
        ≡ MissingRequiredArgument ∷ [] }
    ensures not_verified { fault_of program (codes "jffs2_image" ∷ codes "verify" ∷ codes "a"
        ∷ []) ≡ MissingRequiredArgument ∷ [] }
    ensures not_packed { parsed_from (codes "jffs2_image" ∷ codes "pack" ∷ codes "a" ∷ [])
        ≡ None }
    ensures not_padded { fault_of program (codes "jffs2_image" ∷ codes "compress" ∷ codes "--pad"
        ∷ codes "a" ∷ codes "b" ∷ []) ≡ UnknownArgument ∷ [] }
    ensures no_folder { fault_of program (codes "jffs2_image" ∷ codes "extract" ∷ codes "a" ∷ [])
        ≡ MissingRequiredArgument ∷ [] }
    ensures unreadable_blocks { parsed_from (codes "jffs2_image" ∷ codes "build"
        ∷ codes "--blocks=x" ∷ codes "a" ∷ codes "b" ∷ []) ≡ None }
    ensures unreadable_time { parsed_from (codes "jffs2_image" ∷ codes "pack"
        ∷ codes "--time=x" ∷ codes "a" ∷ codes "b" ∷ []) ≡ None }
    ensures unreadable_update { parsed_from (codes "jffs2_image" ∷ codes "update"
        ∷ codes "--blocks=x" ∷ codes "a" ∷ codes "b" ∷ codes "c" ∷ []) ≡ None }
    ensures unreadable_page { parsed_from (codes "jffs2_image" ∷ codes "update"
        ∷ codes "--page=4097" ∷ codes "a" ∷ codes "b" ∷ codes "c" ∷ []) ≡ None }
    ensures two_orders { parsed_from (codes "jffs2_image" ∷ codes "ls" ∷ codes "-l" ∷ codes "-b"
        ∷ codes "a" ∷ []) ≡ None }
    ensures order_and_letter { parsed_from (codes "jffs2_image" ∷ codes "ls" ∷ codes "-b"
        ∷ codes "--endian=big" ∷ codes "a" ∷ []) ≡ None }
    ensures two_sizes { fault_of program (codes "jffs2_image" ∷ codes "ls" ∷ codes "--block=4096"
        ∷ codes "-e" ∷ codes "4096" ∷ codes "a" ∷ []) ≡ ArgumentConflict ∷ [] }
    ensures unreadable_clashes { parsed_from (codes "jffs2_image" ∷ codes "decompress"
        ∷ codes "--clashes=lower" ∷ codes "a" ∷ codes "b" ∷ []) ≡ None }
    ensures compacted_lower { parsed_from (codes "jffs2_image" ∷ codes "compact"
        ∷ codes "--clashes=lower" ∷ codes "a" ∷ codes "b" ∷ []) ≡ None }
    ensures weak_of_compressed { parsed_from (codes "jffs2_image" ∷ codes "build"
        ∷ codes "--blocks=2" ∷ codes "--weak" ∷ codes "--compress" ∷ codes "a" ∷ codes "b" ∷ [])
        ≡ None }
    ensures unreadable { parsed_from (codes "jffs2_image" ∷ codes "check" ∷ codes "--block=x"
        ∷ codes "--scan" ∷ codes "a" ∷ []) ≡ None }
{}

/// What words with `--auto` ask for.
pub fn known_autos()
    ensures tree { request_from (codes "jffs2_image" ∷ codes "ls" ∷ codes "-a" ∷ codes "a" ∷ [])
        ≡ Some (record {
          auto = true;
          region = None;
          json = false;
          command = command.List (record {
            options = no_options;
            decompress = false;
            image = codes "a";
            path = None;
          });
        }) }
    ensures scanned { request_from (codes "jffs2_image" ∷ codes "check" ∷ codes "--scan"
        ∷ codes "--auto" ∷ codes "a" ∷ [])
        ≡ Some (record {
          auto = true;
          region = None;
          json = false;
          command = command.Scan (record { options = no_options; image = codes "a" });
        }) }
    ensures compared { request_from (codes "jffs2_image" ∷ codes "diff" ∷ codes "a"
        ∷ codes "--auto" ∷ codes "b" ∷ [])
        ≡ Some (record {
          auto = true;
          region = None;
          json = false;
          command = command.Diff (record {
            options = no_options;
            decompress = false;
            times = false;
            first = codes "a";
            second = codes "b";
          });
        }) }
    ensures cut { request_from (codes "jffs2_image" ∷ codes "cuts" ∷ codes "-a"
        ∷ codes "--blocks=2" ∷ codes "--on=b" ∷ codes "a" ∷ [])
        ≡ Some (record {
          auto = true;
          region = None;
          json = false;
          command = command.Cuts (record cuts_of_a { on = Some (codes "b") });
        }) }
    ensures given { request_from (codes "jffs2_image" ∷ codes "info" ∷ codes "a" ∷ [])
        ≡ Some (record {
          auto = false;
          region = None;
          json = false;
          command = command.Info (codes "a");
        }) }
    ensures size { request_from (codes "jffs2_image" ∷ codes "ls" ∷ codes "--auto"
        ∷ codes "--block=65536" ∷ codes "a" ∷ []) ≡ None }
    ensures letter { request_from (codes "jffs2_image" ∷ codes "ls" ∷ codes "-a" ∷ codes "-l"
        ∷ codes "a" ∷ []) ≡ None }
    ensures order { request_from (codes "jffs2_image" ∷ codes "map" ∷ codes "--endian=little"
        ∷ codes "a" ∷ codes "--auto" ∷ []) ≡ None }
    ensures decompressed { request_from (codes "jffs2_image" ∷ codes "ls" ∷ codes "--auto"
        ∷ codes "--decompress" ∷ codes "a" ∷ []) ≡ None }
    ensures cut_alone { request_from (codes "jffs2_image" ∷ codes "cuts" ∷ codes "--auto"
        ∷ codes "--blocks=2" ∷ codes "a" ∷ []) ≡ None }
    ensures read_once { request_from (codes "jffs2_image" ∷ codes "ls" ∷ codes "--auto"
        ∷ codes "-" ∷ []) ≡ None }
    ensures not_of_build { fault_of program (codes "jffs2_image" ∷ codes "build"
        ∷ codes "--auto" ∷ codes "--blocks=2" ∷ codes "a" ∷ codes "b" ∷ [])
        ≡ UnknownArgument ∷ [] }
{}

/// What words with `--oob`, `--offset` and `--length` ask for.
pub fn known_regions()
    ensures layout { layout_of (codes "2048+64") ≡ Some (record { page = 2048; spare = 64 }) }
    ensures none_spare { layout_of (codes "1+0") ≡ Some (record { page = 1; spare = 0 }) }
    ensures greatest { layout_of (codes "65536+65536")
        ≡ Some (record { page = 65536; spare = 65536 }) }
    ensures no_page { layout_of (codes "0+64") ≡ None }
    ensures past_greatest { layout_of (codes "2048+65537") ≡ None }
    ensures page_alone { layout_of (codes "2048") ≡ None }
    ensures no_spare { layout_of (codes "2048+") ≡ None }
    ensures two_signs { layout_of (codes "2048+64+1") ≡ None }
    ensures units { length_of (codes "0x400000") ≡ length_of (codes "4MiB") }
    ensures no_length { length_of (codes "0") ≡ None }
    ensures by_all { region_by (Some (codes "2048+64")) (Some (codes "512K")) (Some (codes "12"))
        ≡ Some (record {
          layout = Some (record { page = 2048; spare = 64 });
          offset = 524288;
          length = Some 12;
        }) }
    ensures counted { request_from (codes "jffs2_image" ∷ codes "info" ∷ codes "--oob"
        ∷ codes "512+16" ∷ codes "a" ∷ [])
        ≡ Some (record {
          auto = false;
          region = Some (record {
            layout = Some (record { page = 512; spare = 16 });
            offset = 0;
            length = None;
          });
          json = false;
          command = command.Info (codes "a");
        }) }
    ensures found { request_from (codes "jffs2_image" ∷ codes "map" ∷ codes "-a"
        ∷ codes "--offset=0x10" ∷ codes "--length=4KiB" ∷ codes "a" ∷ [])
        ≡ Some (record {
          auto = true;
          region = Some (record { layout = None; offset = 16; length = Some 4096 });
          json = false;
          command = command.Map
              (record { options = no_options; svg = false; image = codes "a" });
        }) }
    ensures unread { request_from (codes "jffs2_image" ∷ codes "check" ∷ codes "--oob=64"
        ∷ codes "a" ∷ []) ≡ None }
    ensures empty { request_from (codes "jffs2_image" ∷ codes "check" ∷ codes "--length=0"
        ∷ codes "a" ∷ []) ≡ None }
    ensures cut_alone { request_from (codes "jffs2_image" ∷ codes "cuts" ∷ codes "--offset=16"
        ∷ codes "--blocks=2" ∷ codes "a" ∷ []) ≡ None }
    ensures not_of_build { fault_of program (codes "jffs2_image" ∷ codes "build"
        ∷ codes "--oob=512+16" ∷ codes "--blocks=2" ∷ codes "a" ∷ codes "b" ∷ [])
        ≡ UnknownArgument ∷ [] }
    ensures images { images_read (command.Diff (record {
      options = no_options;
      decompress = false;
      times = false;
      first = codes "a";
      second = codes "b";
    })) ≡ codes "a" ∷ codes "b" ∷ [] }
{}

/// What words with `--json` ask for.
pub fn known_json()
    ensures parameters { request_from (codes "jffs2_image" ∷ codes "info" ∷ codes "--json"
        ∷ codes "a" ∷ [])
        ≡ Some (record {
          auto = false;
          region = None;
          json = true;
          command = command.Info (codes "a");
        }) }
    ensures drawn { request_from (codes "jffs2_image" ∷ codes "map" ∷ codes "--json"
        ∷ codes "--svg" ∷ codes "a" ∷ []) ≡ None }
    ensures not_of_cat { fault_of program (codes "jffs2_image" ∷ codes "cat" ∷ codes "--json"
        ∷ codes "a" ∷ codes "/b" ∷ []) ≡ UnknownArgument ∷ [] }
{}

/// What is asked for is the command of the words, the part of a file that they give, and whether
/// lines are JSON. Without these words and `--auto` among them it is that command alone, with the
/// options that it is given.
pub fn requests_are_parsed()
    ensures command { (args : List Text) (asked : Request Text) → request_from args ≡ Some asked
        → parsed_from args ≡ Some asked.command }
    ensures auto { (args : List Text) (asked : Request Text) → request_from args ≡ Some asked
        → asked.auto ≡ auto_from args }
    ensures region { (args : List Text) (asked : Request Text) → request_from args ≡ Some asked
        → asked.region ≡ region_from args }
    ensures json { (args : List Text) (asked : Request Text) → request_from args ≡ Some asked
        → asked.json ≡ json_from args }
    ensures plain { (args : List Text) → auto_from args ≡ false → has_region_from args ≡ false
        → json_from args ≡ false → request_from args
        ≡ option_map (λ c. record { auto = false; region = None; json = false; command = c })
        (parsed_from args) }
{}
