// Where a row's members, values or parameters stand: from entry number `first` on, the first `count` entries that carry the row.

#[derive(Clone, Copy, PartialEq, Eq)]
pub struct Span {
    pub first: u32,
    pub count: u32,
}
