// A graph as callers lend it.

// Where each row's entries start and where the last end, the entries' columns, and their values.
#[derive(Clone, Copy)]
pub struct Graph<'a> {
    pub starts: &'a [u64],
    pub columns: &'a [u32],
    pub values: &'a [f64],
}
