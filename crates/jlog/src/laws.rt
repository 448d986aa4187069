//! Laws of a log. Each function's contract is a law, and its body is empty.

ghost use Rattle.jlog.specs.Laws.{PlaceIsLeast, PlacesAreLeast, OutputIsLong, OutputGoesOn, OneMoreGoesOut, IntactIsCounted, WholeIsBeginning, AllIsIntact, RoomGoesOn, EndIsWithin, BlocksAreLeast};
ghost use Rattle.jlog.specs.LeftLaws.{PlacedAreNew, BaseStays, LeftIsWithin, LeftSightings, LeftNodes, LeftRefuses, WholeNodes, WholeRefuses, WrittenIsLeft, MarkerIsLeft, PlacesAreLeft, OutputIsImage};
ghost use Rattle.jlog.specs.Forms.{LeftForms, WholeForms};
ghost use Rattle.jlog.specs.Headline.{AcceptedSurvives};
ghost use Rattle.jlog.specs.DoneThrough.{ThroughBegins, DoneSurvives, DoneGoesOn};
ghost use Rattle.jlog.specs.HeadlineThrough.{FormsSurvive};
ghost use Rattle.jlog.specs.MountLaws.{SoundNodesAreApart, LeftIsSound, WholeIsSound, OutputIsSound, OutputMounts};
ghost use Rattle.jlog.specs.SessionAsLaws.{UnpackedApplies, UnpackedRuns, UnpackedMayPack, RunSurvivesAs, RunGoesOnAs, ShorterFormsFit};
ghost use Rattle.jlog.specs.ThroughLaws.{LeftExpands, WholeExpands, OutputExpands, PlainMountsThrough, ThroughMountsPlain};

/// A node goes to the least place, and each next one to the least after it.
pub fn place_is_least()
    ensures place { PlaceIsLeast }
    ensures places { PlacesAreLeast }
{}

/// What goes out runs from where it begins to the last node's end.
pub fn output_is_long()
    ensures { OutputIsLong }
{}

/// More nodes go on where the earlier ones end, one at a time.
pub fn output_goes_on()
    ensures more { OutputGoesOn }
    ensures one { OneMoreGoesOut }
{}

/// There is room for nodes one after the other, and where all fit writing goes on within the flash.
pub fn room_goes_on()
    ensures on { RoomGoesOn }
    ensures end { EndIsWithin }
{}

/// The least number of blocks that hold nodes holds them, and no fewer blocks do; where there is
/// none, no flash of the greatest size holds them.
pub fn blocks_are_least()
    ensures { BlocksAreLeast }
{}

/// The nodes that are intact after a cut are the first ones, as many as are intact; without a cut
/// all are.
pub fn intact_is_counted()
    ensures counted { IntactIsCounted }
    ensures beginning { WholeIsBeginning }
    ensures all { AllIsIntact }
{}

/// Which nodes are intact is seen from what is left at their places.
pub fn places_are_left()
    ensures { PlacesAreLeft }
{}

/// New nodes are placed at the places, each at its own.
pub fn placed_are_new()
    ensures { PlacedAreNew }
{}

/// What a stop leaves has the base's blocks below the address where writing went on, and no more
/// blocks than the flash.
pub fn base_stays()
    ensures blocks { BaseStays }
    ensures within { LeftIsWithin }
{}

/// Some image may always be left: what went out, and where no more than a marker did, more of that.
pub fn some_are_left()
    ensures written { WrittenIsLeft }
    ensures marker { MarkerIsLeft }
{}

/// After a cut there stands what was in the base, and the forms that are intact, but for markers
/// and damage; without a cut all of them, weak or not and of any length.
pub fn left_forms()
    ensures cut { LeftForms }
    ensures whole { WholeForms }
{}

/// Through the compression the nodes are the base's, and those of the forms that are kept; without
/// a cut those of all. So an image of forms alone has just their nodes.
pub fn left_expands()
    ensures cut { LeftExpands }
    ensures whole { WholeExpands }
    ensures image { OutputExpands }
{}

/// An image without compressed nodes mounts through just where it mounts, as the same file system.
pub fn mount_through()
    ensures plain { PlainMountsThrough }
    ensures through { ThroughMountsPlain }
{}

/// The same of nodes: after a cut there stands what was in the base, and the new nodes that are
/// intact, but for markers and damage.
pub fn left_sightings()
    ensures { LeftSightings }
{}

/// So the nodes are the base's, and the new ones that are kept.
pub fn left_nodes()
    ensures { LeftNodes }
{}

/// What refuses a scan of it, or forbids to write after it, does so in the base.
pub fn left_refuses()
    ensures { LeftRefuses }
{}

/// Without a cut the nodes are the base's and all new ones, weak or not and of any length, and the
/// same refuses.
pub fn left_whole()
    ensures nodes { WholeNodes }
    ensures refuses { WholeRefuses }
{}

/// No two nodes of an image without a fault clash.
pub fn sound_nodes_are_apart()
    ensures { SoundNodesAreApart }
{}

/// On a base without a fault, what is left has none where no new node clashes; and it has the
/// base's nodes and the new ones that stand whole.
pub fn left_is_sound()
    ensures cut { LeftIsSound }
    ensures whole { WholeIsSound }
{}

/// Whatever the base that mounts, the accepted operations and the byte where writing stops: what is
/// left mounts as the file system after the steps whose nodes stand whole.
pub fn accepted_survives()
    ensures { AcceptedSurvives }
{}

/// Whatever the base that mounts through, the accepted operations, the forms that their nodes are
/// put in and the byte where writing stops: what is left mounts through as the file system after
/// the steps whose forms stand whole.
pub fn forms_survive()
    ensures { FormsSurvive }
{}

/// A log goes on from an image that mounts through. What it has done, in whatever forms, survives
/// while more is written, and it goes on after that.
pub fn done_survives()
    ensures begins { ThroughBegins }
    ensures survives { DoneSurvives }
    ensures goes_on { DoneGoesOn }
{}

/// What a run of a session that packs did survives, on whatever base that mounts through, and the
/// log goes on after it.
pub fn run_survives_as()
    ensures survives { RunSurvivesAs }
    ensures goes_on { RunGoesOnAs }
{}

/// Forms fit where the nodes' own do.
pub fn shorter_forms_fit()
    ensures { ShorterFormsFit }
{}

/// A session that may pack, and does not, promises what one that never packs does; and what it did
/// is what one may do that packs.
pub fn unpacked_is_as_ever()
    ensures applies { UnpackedApplies }
    ensures runs { UnpackedRuns }
    ensures may { UnpackedMayPack }
{}

/// What goes out for any nodes from the start of an erased flash on is an image of these nodes, at
/// their places, that nothing refuses; and where no two clash and the root is a directory, it
/// mounts as the file system that they make.
pub fn output_mounts()
    ensures image { OutputIsImage }
    ensures sound { OutputIsSound }
    ensures mounts { OutputMounts }
{}
