//! Tests of `jname`: removed and made again names, orders, clashes, a name that an image holds in
//! part, and refused growth.

mod clashes;
mod entries;
mod growth;
mod live;
