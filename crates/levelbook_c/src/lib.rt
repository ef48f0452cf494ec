// What the crates over a book offer to C: thin names for their functions, a file for each crate. In C each list is a pointer and a length.
#![tactic(auto)]

pub mod drift;
pub mod judge;
pub mod profile;
