//! Tests of `jreserve` through its public calls: what Linux keeps in reserve, with numbers that its
//! lines give by hand, erased parts, and the note.

mod notes;
