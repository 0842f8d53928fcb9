// A row's entries, read through a small view that holds its columns and their weights. The view is made once a row, and whoever
// walks the entries takes it apart and works on plain slices.
#![tactic(auto)]

ghost use Rattle.std.specs.Prelude.{◌≡◌, ◌-◌, ◌≤◌, ◌<◌, length, get_or, take, drop};

#[derive(Clone, Copy)]
pub struct RowView<'a, 'b> {
    pub columns: &'a [u32],
    pub weights: &'b [f64],
}

impl<'a, 'b> RowView<'a, 'b> {
    // The row whose entries stand in the lists from a up to e.
    pub fn new(columns: &'a [u32], weights: &'b [f64], a: usize, e: usize) -> RowView<'a, 'b>
        requires { (a ≤ e) × (e ≤ length columns.now) × (e ≤ length weights.now) }
        ensures { (result.columns.now ≡ take (e - a) (drop a columns.now))
            × (result.weights.now ≡ take (e - a) (drop a weights.now)) }
    {
        RowView {
            columns: &columns[a..e],
            weights: &weights[a..e],
        }
    }

    // How many entries the row has.
    pub fn len(self) -> usize
        ensures { result ≡ length self.entry.columns.now }
    {
        self.columns.len()
    }

    // The column of the entry at place p of the row.
    pub fn column_at(self, p: usize) -> u32
        requires { p < length self.columns.now }
        ensures { result ≡ get_or self.entry.columns.now p 0 }
    {
        self.columns[p]
    }
}
