// The calls of the held run: opening, a chunk, and closing, with the graph's and the lent lists.
use crate::cases::Case;
use crate::graph::Graph;
use crate::lists::{Lists, front};
use input::SpectralParams;
use state::{Answer, Memory, MemoryView, State};

// How many row starts, entries and numbers of the Ritz record a call is lent, and no more than there are.
#[derive(Clone, Copy)]
pub struct Lent {
    pub starts: usize,
    pub entries: usize,
    pub record: usize,
}

impl Lent {
    fn graph(self, graph: &Graph) -> input::Graph<'_> {
        input::Graph {
            starts: front(&graph.starts, self.starts),
            columns: front(&graph.columns, self.entries),
            values: front(&graph.values, self.entries),
        }
    }
}

// Opening a case with so many dimensions.
pub fn open(case: Case, dims: usize, lent: Lent, graph: &Graph, lists: &mut Lists) -> Answer {
    let params = SpectralParams {
        rounds: case.rounds as u64,
        degree: case.degree as u64,
        seed_std: SpectralParams::DEFAULT_SEED_STD,
    };
    let memory = MemoryView {
        inverse: &lists.inverse,
        v0: &lists.v0,
        edge_columns: &lists.edge_columns,
        edge_weights: &lists.edge_weights,
        block0: &lists.block0,
        block1: &lists.block1,
        block2: &lists.block2,
        partials: &lists.partials,
        output: &lists.output,
    };
    let record = front(&lists.ritz_record, lent.record);
    run::open(
        dims as u64,
        params,
        lent.graph(graph),
        memory,
        &mut lists.marks,
        record,
    )
}

// A chunk of the stage at hand.
pub fn chunk(state: State, number: usize, lent: Lent, graph: &Graph, lists: &mut Lists) -> Answer {
    let mut memory = Memory {
        inverse: &mut lists.inverse,
        v0: &mut lists.v0,
        edge_columns: &mut lists.edge_columns,
        edge_weights: &mut lists.edge_weights,
        block0: &mut lists.block0,
        block1: &mut lists.block1,
        block2: &mut lists.block2,
        partials: &mut lists.partials,
        output: &mut lists.output,
    };
    let record = front(&lists.ritz_record, lent.record);
    run::chunk(
        state,
        number,
        lent.graph(graph),
        &mut memory,
        &mut lists.marks,
        record,
    )
}

// Closing the stage.
pub fn close(state: State, lent: Lent, graph: &Graph, lists: &mut Lists) -> Answer {
    let memory = MemoryView {
        inverse: &lists.inverse,
        v0: &lists.v0,
        edge_columns: &lists.edge_columns,
        edge_weights: &lists.edge_weights,
        block0: &lists.block0,
        block1: &lists.block1,
        block2: &lists.block2,
        partials: &lists.partials,
        output: &lists.output,
    };
    let record = &mut lists.ritz_record[..];
    let room = record.len().min(lent.record);
    run::close(
        state,
        lent.graph(graph),
        memory,
        &mut lists.marks,
        &mut record[..room],
    )
}
