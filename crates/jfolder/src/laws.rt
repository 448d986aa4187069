//! The law of a tree's listing, the contract of an empty function.

ghost use Rattle.jfolder.specs.Laws as law;

/// The text of a tree that fits is read as the actions that make it.
pub fn listing_is_read_back()
    ensures { law.ListingIsReadBack }
{}
