//! Tests of `jhint` through its public calls: what images show that were read with their own
//! options and with others, and the note.

mod hints;
