//! Laws of the definitions, each the contract of an empty function.

ghost use Rattle.jmount.specs.Laws as law;

/// An object depends on which inode nodes there are, and not on their order or how often each is
/// there.
pub fn objects_depend_on_nodes()
    ensures one { law.ObjectDependsOnNodes }
    ensures all { law.ObjectsDependOnNodes }
{}

/// So do the next number and the greatest versions, whether nodes clash or not.
pub fn numbers_depend_on_nodes()
    ensures next { law.NextDependsOnNodes }
    ensures top { law.TopDependsOnNodes }
    ensures tops { law.TopsDependOnNodes }
{}

/// So does the whole file system.
pub fn state_depends_on_nodes()
    ensures { law.StateDependsOnNodes }
{}

/// The file system has at each number the object that its nodes make, and at each name what the
/// name stands for.
pub fn state_has_each()
    ensures objects { law.ObjectsHaveEach }
    ensures object { law.StateHasObjects }
    ensures name { law.StateHasNames }
{}

/// The map of the greatest versions has at each number the greatest version, or nothing where that
/// is 0.
pub fn tops_have_each()
    ensures { law.TopsHaveEach }
{}

/// An object has the attributes and the size of its highest version, and each byte of the highest
/// version that covers it. A device has its number of its highest version, and nothing else has one.
pub fn objects_are_of_highest()
    ensures range { law.PieceIsRange }
    ensures attributes { law.ObjectIsOfLatest }
    ensures devices { law.OnlyDevicesHaveNumbers }
    ensures none { law.NoObjectWithoutNodes }
    ensures bytes { law.ByteIsOfHighest }
{}

/// A name stands for what its entry of highest version says, and for nothing where that says that
/// it is gone.
pub fn names_are_of_newest()
    ensures some { law.NameIsOfNewest }
    ensures none { law.NoNameIsOfNone }
{}

/// The next number and the greatest versions are the least that serve.
pub fn numbers_are_least()
    ensures next { law.NextIsLeastPastAll }
    ensures top { law.TopIsLeastNotPassed }
{}

/// Greatest versions and the next number come of inode nodes and of entries.
pub fn numbers_are_of_both_kinds()
    ensures top { law.TopIsOfBothKinds }
    ensures next { law.NextIsOfBothKinds }
{}

/// What one more node changes.
pub fn one_more_node()
    ensures top { law.TopOfOneMore }
    ensures next { law.NextOfOneMore }
    ensures entry { law.NewEntryIsVisible }
    ensures inode { law.NewInodeIsVisible }
    ensures bytes { law.NewBytesAreVisible }
    ensures objects { law.EntryKeepsObjects }
    ensures names { law.InodeKeepsNames }
{}

/// Which numbers are in use, and what a new node may take.
pub fn numbers_in_use()
    ensures used { law.StateIsNumbered }
    ensures free { law.FreshNumberIsFree }
    ensures apart { law.NewNodeDoesNotClash }
{}

/// Objects fit their widths, as the nodes that make them do.
pub fn objects_fit()
    ensures { law.ObjectsFit }
{}

/// What a path is, as a relation and as a function.
pub fn paths_have_names()
    ensures { law.PathNamesExactly }
{}

/// What an outline keeps of a file system.
pub fn outline_keeps_find()
    ensures objects { law.OutlineHasObjects }
    ensures find { law.FindIsOfOutline }
{}

/// The shape of a tree: computed, kept by an outline, and what it gives: one path at most to each
/// directory.
pub fn shape_is_decided()
    ensures computed { law.ShapeIsDecided }
    ensures outline { law.ShapeIsOfOutline }
    ensures paths { law.OnePathToEach }
{}
