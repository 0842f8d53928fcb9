// The lengths of lent memory that the tests of a call don't find in the lists that they get.
ghost use Rattle.std.specs.Prelude.{◌≡◌};
ghost use Rattle.state.specs.Said.{all_seen};
ghost use Rattle.guard.specs.Rows.{other_lengths};

use state::MemoryView;

pub fn other_lengths(memory: MemoryView<'_>, ritz_record: &[f64]) -> [usize; 9]
    ensures { result ≡ other_lengths (all_seen memory.entry ritz_record.now) }
{
    [
        memory.inverse.len(),
        memory.v0.len(),
        memory.edge_weights.len(),
        memory.block0.len(),
        memory.block1.len(),
        memory.block2.len(),
        memory.partials.len(),
        memory.output.len(),
        ritz_record.len(),
    ]
}
