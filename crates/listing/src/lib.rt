// The printed result: line by line, and in pieces.
#![tactic(auto)]

pub mod lines;
pub mod pieces;
