//! Worked examples. Each function's contract has bytes and no variables, and its body is empty.

ghost use Rattle.std.specs.Prelude.{◌≡◌, [], ◌∷◌, ◌++◌, codes};
ghost use Rattle.jjson.specs.Json.{text_member};
ghost use Rattle.jjson.specs.Numbers.{address_number};
ghost use Rattle.jjson.specs.Texts.{json_line, json_of};
ghost use Rattle.jjson.specs.Words.{meant, words_of};

use crate::lines::Lines;

/// Words between several spaces, and a name with an escape, with a wrong one, and in capitals.
pub fn known_words()
    ensures words { words_of (codes "  ab c  ") ≡ codes "ab" ∷ codes "c" ∷ [] }
    ensures none { words_of (codes "  ") ≡ [] }
    ensures meant { meant (codes "a\\x20b") ≡ codes "a b" }
    ensures wrong { meant (codes "a\\q") ≡ codes "a\\q" }
    ensures capitals { meant (codes "\\xC3") ≡ 195 ∷ [] }
    ensures address { address_number (codes "0000010a") ≡ 266 }
{}

/// A member that is plain, and one of characters that are escaped.
pub fn known_members()
    ensures plain { text_member (codes "name") (codes "ab") ≡ codes ",\"name\":\"ab\"" }
    ensures escaped { text_member (codes "name") (34 ∷ 92 ∷ 10 ∷ [])
        ≡ codes ",\"name\":\"\\\"\\\\\\u000a\"" }
{}

/// A line with an address, and a heading.
pub fn known_lines()
    ensures weak { json_line Lines.Cuts (codes "weak 0000007c at 68")
        ≡ codes "{\"line\":\"weak\",\"address\":124,\"at\":68}\n" }
    ensures heading { json_line Lines.Map
        (codes "block  address  live superseded  obsolete  damaged  free") ≡ [] }
{}

/// Two lines, and the beginning of a third.
pub fn known_text()
    ensures { json_of Lines.Parameters (codes "bytes 7\nhighest inode 4 version 3\nord")
        ≡ codes "{\"line\":\"bytes\",\"bytes\":7}\n"
        ++ codes "{\"line\":\"highest\",\"inode\":4,\"version\":3}\n" }
{}
