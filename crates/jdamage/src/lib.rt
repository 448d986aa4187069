//! What the damage of an image costs: which paths a damaged node hides, and which names have no
//! object.
//!
//! It is built on `jscan` (the nodes of an image, and which of them are damaged), `jmount` (mounted
//! images) and `jline` (lines of text); its laws speak of `jthrough` too (images that are mounted
//! through their compression). Its promise to the program: what goes to a sink is a line for each
//! path that a damaged node hides, or that it hides none, one for each name whose object is
//! missing, and the totals.
//!
//! `specs/Fields.antt` says what is read of a damaged node, `specs/Coverage.antt` when it hides
//! nothing, `specs/Ranges.antt` on which sound nodes that hangs, `specs/Entered.antt` by which name
//! `ls` enters a directory, `specs/Ways.antt` which paths lead to a number, `specs/Lines.antt` how the
//! lines are spelled, and `specs/Damage.antt` which lines there are. `laws` says what follows from
//! these.
#![tactic(auto)]

mod coverage;
mod damage;
mod entered;
mod fault;
mod fields;
mod firsts;
mod groups;
mod hidden;
pub mod laws;
mod lines;
mod nodes;
mod nowhere;
mod ranges;
mod room;
mod telling;
mod totals;
mod ways;
mod ways_up;

pub use crate::damage::put_damage;
pub use crate::fault::DamageFault;
pub use crate::totals::Totals;
pub use crate::ways_up::WaysUp;
