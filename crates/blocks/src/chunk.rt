// A chunk of a stage: what was asked, where the run is, and which rows are the chunk's own.
ghost use Rattle.std.specs.Prelude.{◌≡◌, ◌+◌, ◌*◌, ◌<◌};
ghost use Rattle.definition.specs.Arith.{ieee64};
ghost use Rattle.definition.specs.Numbers.{first_row};
ghost use Rattle.machine.specs.State.{chunk_count, wide};
ghost use Rattle.machine.specs.Ready.{AskedReady, ProgressReady};
ghost use Rattle.state.specs.Said.{asked_in, progress_in};

use numbers::Rows;
use state::{Asked, Progress};

#[derive(Clone, Copy)]
pub struct Chunk {
    pub asked: Asked,
    pub progress: Progress,
    pub number: usize,
    ghost asked_ready: { AskedReady (asked_in asked) },
    ghost progress_ready: { ProgressReady ieee64 (asked_in asked) (progress_in progress) },
    ghost one_of: { number < chunk_count (asked_in asked) },
}

impl Chunk {
    // Its first row.
    pub fn first(self) -> usize
        ensures { result ≡ first_row self.asked.rows self.number }
    {
        input::first_row(self.asked.rows, self.number)
    }

    // The row after its last.
    pub fn end(self) -> usize
        ensures { result ≡ first_row self.asked.rows (self.number + 1) }
    {
        input::end_row(self.asked.rows, self.number)
    }

    // Its rows of a block.
    pub fn rows(self) -> Rows
        ensures n { result.n ≡ self.asked.rows }
        ensures width { result.width ≡ wide (asked_in self.asked) }
        ensures first { result.first ≡ first_row self.asked.rows self.number }
        ensures end { result.end ≡ first_row self.asked.rows (self.number + 1) }
    {
        Rows {
            n: self.asked.rows,
            width: self.asked.width(),
            first: self.first(),
            end: self.end(),
        }
    }

    // The place of its partial among the partials of all chunks.
    pub fn partial(self) -> usize
        ensures { result ≡ self.number * (wide (asked_in self.asked) * wide (asked_in self.asked)) }
    {
        let k = self.asked.width();
        self.number * (k * k)
    }
}
