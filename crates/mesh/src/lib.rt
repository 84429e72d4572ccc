// Reading and writing a mesh.
#![tactic(auto)]

mod cells;
pub mod reader;
pub mod writer;
