// The text book, read line by line into a state.
#![tactic(auto)]

pub mod reader;
pub mod text;
