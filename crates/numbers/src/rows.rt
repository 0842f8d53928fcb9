// The rows of a chunk, which the crates that work on one ask for by this record.

// Of n rows of `width` numbers each, those from `first` up to `end`. Plain data, with no fact in it: the public functions that take it ask no more
// than they asked of four numbers.
#[derive(Clone, Copy, Debug, PartialEq)]
pub struct Rows {
    pub n: usize,
    pub width: usize,
    pub first: usize,
    pub end: usize,
}
