//! Images that a command makes of other ones: `decompress`, `compress`, `decompress --clashes
//! higher`, `compact`, `compact --clashes higher`.
//!
//! `specs/Commands.antt` has the act of each, `specs/Asked.antt` what is asked of the image that is
//! taken, `specs/Putting.antt` what goes to the file it makes. `specs/Compacting.antt` says what
//! `compact` judges, `specs/CompactingApart.antt` what `compact --clashes higher` does.
#![tactic(auto)]

pub mod apart;
pub mod asked;
pub mod commands;
pub mod compact;
pub mod compact_apart;
pub mod compress;
pub mod decompress;
pub mod judging;
pub mod laws;
pub mod leaving;
pub mod line;
pub mod original;
pub mod planning;
pub mod remaking;
