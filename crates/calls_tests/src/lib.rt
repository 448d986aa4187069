//! Tests of `jcalls`, each call with ample memory on images whose bytes are known from outside, and
//! with too little room. What the calls answer over C, and where memory is refused, is in
//! tests/bindings.sh.
#![tactic(auto)]

#[cfg(test)]
mod calls;
#[cfg(test)]
mod checks;
#[cfg(test)]
mod compacts;
#[cfg(test)]
mod images;
#[cfg(test)]
mod keeps;
#[cfg(test)]
mod texts;
#[cfg(test)]
mod updates;
#[cfg(test)]
mod writes;
