// The types that the definitions of specs/ and the code share.
#![tactic(auto)]

pub mod amounts;
pub mod answers;
pub mod counts;
pub mod form;
pub mod operator;
pub mod pattern;
pub mod refusals;
