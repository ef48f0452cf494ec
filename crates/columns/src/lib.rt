// Numbers, tags and lines in fixed columns, read and written. proofs/ shows that reading and writing undo each other.
#![tactic(auto)]

pub mod parser;
pub mod writer;

// A line with nothing in its 83 columns.
const BLANK_LINE: &[u8; 84] =
    b"                                                                                   \n";
