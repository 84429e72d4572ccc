// A decoded operator: one of five kinds, each with only the numbers that kind needs. `list` is the place of its list in the bytes.
#[derive(Clone, Copy, Debug, PartialEq, Eq)]
pub enum Operator {
    Make { dim: u8, list: usize },
    Kill { dim: u8, cell: u8 },
    Split { dim: u8, cell: u8, list: usize },
    Merge { dim: u8, cell: u8 },
    Flip { dim: u8, cell: u8 },
}
