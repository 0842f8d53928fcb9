// A chunk's work in each stage of a held run, and the choice among the stages. The stages over one of the three blocks are the
// crate `blocks`'s.
#![tactic(auto)]

pub mod setup; // setup.rt: degrees, edges, v0
mod passes; // passes.rt: what a filter pass multiplies by
pub mod output; // output.rt: sums, centre, squares, scale

ghost use Rattle.std.specs.Prelude.{◌≡◌};
ghost use Rattle.definition.specs.Arith.{ieee64};
ghost use Rattle.machine.specs.Ready.{Ready};
ghost use Rattle.machine.specs.Work.{work};
ghost use Rattle.state.specs.Said.{lists_of, lent_in, lent_of, SamePlaces};
ghost use Rattle.stages.specs.Parts.{parts_of};

use blocks::{Blocks, Chunk, Edges};
use input::Graph;
use rows::Operator;
use state::{Asked, Memory, Progress, Stage};

// A state by the parts that some stage reads, where they lie, so that no call copies a matrix.
#[derive(Clone, Copy)]
pub struct StateParts<'a> {
    pub asked: Asked,
    pub progress: Progress,
    pub totals: &'a [f64; 225],
    pub vectors: &'a [f64; 225],
    pub order: &'a [usize; 15],
}

// The work of chunk h in the state's stage. Each stage is lent the lists that it reads or writes, and no other; where no run is open there
// is no work. The nine lists stand one by one here, and not in a `Memory`: tried, and of a list out of one record that a second record
// (`Blocks`, `Edges`) has held, the check knows no number afterwards.
fn stage_work<'a, 'g>(
    parts: StateParts<'a>,
    h: usize,
    graph: Graph<'g>,
    inverse: &mut [f64],
    v0: &mut [f64],
    edge_columns: &mut [u32],
    edge_weights: &mut [f64],
    block0: &mut [f64],
    block1: &mut [f64],
    block2: &mut [f64],
    partials: &mut [f64],
    output: &mut [f64],
)
    requires { Ready ieee64 (parts_of parts) h (lists_of graph)
        (lent_in inverse.old v0.old edge_columns.old edge_weights.old block0.old block1.old block2.old partials.old output.old) }
    ensures { lent_in inverse.new v0.new edge_columns.new edge_weights.new block0.new block1.new block2.new partials.new output.new
        ≡ work ieee64 (parts_of parts.entry) (lists_of graph.entry) h
        (lent_in inverse.old v0.old edge_columns.old edge_weights.old block0.old block1.old block2.old partials.old output.old) }
{
    let StateParts {
        asked,
        progress,
        totals,
        vectors,
        order,
    } = parts;
    let Graph {
        starts,
        columns,
        values,
    } = graph;
    let chunk = Chunk {
        asked,
        progress,
        number: h,
    };
    let blocks = Blocks {
        chunk,
        block0: &block0[..],
        block1: &block1[..],
        block2: &block2[..],
    };
    let stage = Stage::from(progress.stage);
    match stage {
        Stage::Degrees => setup::degrees_stage(asked, h, starts, values, inverse, v0),
        Stage::Edges => setup::edges_stage(
            asked,
            h,
            starts,
            columns,
            values,
            inverse,
            edge_columns,
            edge_weights,
        ),
        Stage::V0 => setup::v0_stage(asked, progress.norm, h, v0),
        Stage::StartBlock => blocks::start_stage(chunk, block0),
        Stage::FilterPass => {
            let op = Operator {
                starts,
                columns: &edge_columns[..],
                weights: &edge_weights[..],
                inverse: &inverse[..],
            };
            let edges = Edges { chunk, op };
            let by = passes::filter_by(progress);
            let previous = progress.previous;
            blocks::pass_stage(edges, by, previous, block0, block1, block2)
        }
        Stage::NormBefore | Stage::NormAfter => blocks::norm_stage(blocks, partials),
        Stage::FirstDots | Stage::SecondDots => blocks::dots_stage(blocks, v0, partials),
        Stage::FirstSubtract | Stage::SecondSubtract => {
            blocks::subtract_stage(chunk, totals, v0, block0, block1, block2)
        }
        Stage::Write => blocks::write_stage(chunk, block0, block1, block2),
        Stage::PlainPass => {
            // The current block stands for both.
            let op = Operator {
                starts,
                columns: &edge_columns[..],
                weights: &edge_weights[..],
                inverse: &inverse[..],
            };
            let edges = Edges { chunk, op };
            let by = numbers::plain_multipliers();
            blocks::pass_stage(edges, by, progress.current, block0, block1, block2)
        }
        Stage::Products => blocks::products_stage(blocks, partials),
        Stage::Rotate => blocks::rotate_stage(blocks, vectors, order, inverse, output),
        Stage::Sums => output::sums_stage(asked, h, output, partials),
        Stage::Centre => output::centre_stage(asked, totals, h, output),
        Stage::Squares => output::squares_stage(asked, h, output, partials),
        Stage::Scale => output::scale_stage(asked, totals, h, output),
        Stage::Empty | Stage::Ended => {}
    }
}

// The same of a run's memory.
pub fn chunk_work<'a, 'g, 'm>(
    parts: StateParts<'a>,
    h: usize,
    graph: Graph<'g>,
    memory: &mut Memory<'m>,
)
    requires { Ready ieee64 (parts_of parts) h (lists_of graph) (lent_of memory.old) }
    ensures done { lent_of memory.new ≡ work ieee64 (parts_of parts.entry) (lists_of graph.entry) h (lent_of memory.old) }
    ensures same_places { SamePlaces memory.old memory.new }
{
    stage_work(
        parts,
        h,
        graph,
        &mut *memory.inverse,
        &mut *memory.v0,
        &mut *memory.edge_columns,
        &mut *memory.edge_weights,
        &mut *memory.block0,
        &mut *memory.block1,
        &mut *memory.block2,
        &mut *memory.partials,
        &mut *memory.output,
    );
}
