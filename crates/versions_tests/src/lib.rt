//! Tests of `jversions` and `jdeleted` through their public calls: revisions and deleted files of
//! worked images, from the rules and not from the program's output, in both byte orders; and a sink
//! that fails.
#![tactic(auto)]

#[cfg(test)]
mod checks;
#[cfg(test)]
mod deleted;
#[cfg(test)]
mod images;
#[cfg(test)]
mod revisions;
