// What a call answers where it is more than a number.
use crate::refusals::Stop;

// A script: how many operators were accepted, and what stopped it.
#[derive(Clone, Copy, Debug, PartialEq, Eq)]
pub struct ScriptRun {
    pub ran: u16,
    pub ended: Result<(), Stop>,
}
