// The five operators on a good pattern.
#![tactic(auto)]

mod append;
mod chosen;
mod divider;
mod faces;
pub mod flip;
mod halves;
pub mod kill;
pub mod make;
pub mod merge;
pub mod split;
