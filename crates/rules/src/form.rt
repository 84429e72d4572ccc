// What reading the form of bytes answers.

// The first fault in byte order, with its place: the bytes end, a field is wrong, bytes are left over.
#[derive(Clone, Copy, Debug, PartialEq, Eq)]
pub enum Fault {
    Ends(usize),
    Wrong(usize),
    Left(usize),
}

// What a code byte says: kind and dimension.
#[derive(Clone, Copy, Debug, PartialEq, Eq)]
pub enum Code {
    Make(u8),
    Kill(u8),
    Split(u8),
    Merge(u8),
    Flip(u8),
}
