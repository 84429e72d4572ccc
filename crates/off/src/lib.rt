// OFF texts in and out.
#![tactic(auto)]

mod ends;
mod lengths;
mod lines;
mod panels;
mod places;
pub mod reader;
mod rings;
mod sewing;
mod walks;
mod words;
pub mod writer;
