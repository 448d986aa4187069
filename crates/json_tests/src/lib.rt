//! Tests of `jjson`.
#![tactic(auto)]

#[cfg(test)]
mod checks;
#[cfg(test)]
mod json;
