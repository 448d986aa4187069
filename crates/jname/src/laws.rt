//! Laws of the definitions, each the contract of an empty function.

ghost use Rattle.std.specs.Prelude.{◌≡◌, ℕ, List};
ghost use Rattle.std.specs.FinMap.{get};
ghost use Rattle.jnode.specs.declared.node.Dirent.{Dirent};
ghost use Rattle.jname.specs.Clash.{NoEntriesClash};
ghost use Rattle.jname.specs.Live.{Key, live, live_names, highest, SameEntries};

/// The map of live names has at each key what the key's name stands for.
pub fn live_names_are_live()
    ensures { (given : List Dirent) (key : Key) → get (live_names given) key ≡ live given key }
{}

/// What a name stands for depends on which entries there are, and not on their order or how often
/// each is there.
pub fn live_depends_on_entries()
    ensures { (a b : List Dirent) (key : Key) → SameEntries a b → NoEntriesClash a
        → live a key ≡ live b key }
{}

/// So do all live names.
pub fn live_names_depend_on_entries()
    ensures { (a b : List Dirent) → SameEntries a b → NoEntriesClash a
        → live_names a ≡ live_names b }
{}

/// So does the greatest version of a directory, whether entries clash or not.
pub fn highest_depends_on_entries()
    ensures { (a b : List Dirent) (pino : ℕ) → SameEntries a b → highest a pino ≡ highest b pino }
{}
