// Reads and writes that fail, told on standard error in the system's words.
use arrayvec::ArrayString;
use std::fmt::Write;
use std::io;

// A line: what failed, a colon and why, without the number that std puts after the system's words.
pub(crate) fn tell(rt: &impl Eprint, what: &str, error: io::Error) {
    let mut words = ArrayString::<128>::new();
    let _ = write!(words, "{error}");
    let text = words.as_str();
    let why = text
        .split_once(" (os error ")
        .map_or(text, |(words, _)| words);
    let _ = eprintln!(rt; "{what}: {why}");
}
