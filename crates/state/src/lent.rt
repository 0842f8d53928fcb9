// The memory that a run is lent, in document 01's order. The marks (8) and the Ritz record (10) are lent beside it: no chunk's work reads
// or writes them.
ghost use Rattle.std.specs.Prelude.{◌≡◌};
ghost use Rattle.definition.specs.Arith.{ieee64};
ghost use Rattle.machine.specs.State.{lengths_of};
ghost use Rattle.state.specs.Said.{lent_of, lent_seen, all_seen};

// The lists that chunks work on, lent memory 0 to 7 and 9.
#[derive(Drop)]
pub struct Memory<'a> {
    pub inverse: &'a mut [f64],
    pub v0: &'a mut [f64],
    pub edge_columns: &'a mut [u32],
    pub edge_weights: &'a mut [f64],
    pub block0: &'a mut [f64],
    pub block1: &'a mut [f64],
    pub block2: &'a mut [f64],
    pub partials: &'a mut [f64],
    pub output: &'a mut [f64],
}

// The same lists, where a call only reads them.
#[derive(Clone, Copy)]
pub struct MemoryView<'a> {
    pub inverse: &'a [f64],
    pub v0: &'a [f64],
    pub edge_columns: &'a [u32],
    pub edge_weights: &'a [f64],
    pub block0: &'a [f64],
    pub block1: &'a [f64],
    pub block2: &'a [f64],
    pub partials: &'a [f64],
    pub output: &'a [f64],
}

impl<'a> Memory<'a> {
    // The same lists, to be read.
    pub fn view(&self) -> MemoryView<'_>
        ensures { lent_seen result ≡ lent_of self.now }
    {
        MemoryView {
            inverse: &*self.inverse,
            v0: &*self.v0,
            edge_columns: &*self.edge_columns,
            edge_weights: &*self.edge_weights,
            block0: &*self.block0,
            block1: &*self.block1,
            block2: &*self.block2,
            partials: &*self.partials,
            output: &*self.output,
        }
    }
}

impl<'a> MemoryView<'a> {
    // The lengths of lent memory 0 to 10. An array and no struct: document 01 numbers the lent memory, `input::lent_sizes` answers its sizes by
    // that number, and refusal 11 names one by it.
    pub fn lengths(self, marks: &[u8], ritz_record: &[f64]) -> [usize; 11]
        ensures { result ≡ lengths_of ieee64 (all_seen self.entry ritz_record.now) marks.now }
    {
        [
            self.inverse.len(),
            self.v0.len(),
            self.edge_columns.len(),
            self.edge_weights.len(),
            self.block0.len(),
            self.block1.len(),
            self.block2.len(),
            self.partials.len(),
            marks.len(),
            self.output.len(),
            ritz_record.len(),
        ]
    }
}
