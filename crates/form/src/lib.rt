// The form of the bytes of operators and scripts: what is read, or the first fault in byte order.
#![tactic(auto)]

pub mod fields;
pub mod lists;
pub mod operators;
pub mod script;
