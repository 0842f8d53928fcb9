// What a reduction leaves in the state: its totals, a norm, or the columns' scales.
ghost use Rattle.std.specs.Prelude.{◌≡◌, ◌*◌, ◌≤◌, length};
ghost use Rattle.definition.specs.Arith.{ieee64};
ghost use Rattle.machine.specs.State.{wide, chunk_count};
ghost use Rattle.machine.specs.Ready.{AskedReady};
ghost use Rattle.machine.specs.Closing.{totals_of, norm_of, scales_of};
ghost use Rattle.state.specs.Said.{asked_in};

use state::Asked;

// The partials of all chunks, k * k numbers for each, with what was asked.
#[derive(Clone, Copy)]
pub struct Partials<'a> {
    pub asked: Asked,
    pub numbers: &'a [f64],
    ghost asked_ready: { AskedReady (asked_in asked) },
    ghost all: { chunk_count (asked_in asked) * wide (asked_in asked) * wide (asked_in asked) ≤ length numbers.now },
}

impl<'a> Partials<'a> {
    // The totals of a stage that writes `width` numbers a chunk, put into `totals`, whatever stood there; zeros behind them.
    // Lent and not answered: with an array answered to `close_stage` in each of its arms a C program's closing took 62,344 bytes of stack, and
    // takes 55,144, measured; bindings/c/stack.c allows 56,000.
    pub fn totals(self, width: usize, totals: &mut [f64; 225])
        requires { width ≤ wide (asked_in self.asked) * wide (asked_in self.asked) }
        ensures { totals.new ≡ totals_of ieee64 (asked_in self.entry.asked) width self.entry.numbers.now }
    {
        let asked = self.asked;
        let chunks = input::chunk_count(asked.rows);
        sums::totals(chunks, asked.width(), width, self.numbers, totals);
    }

    // The norm of the column whose squares were summed.
    pub fn norm(self) -> f64
        ensures { result ≡ norm_of ieee64 (asked_in self.entry.asked) self.entry.numbers.now }
    {
        let asked = self.asked;
        let chunks = input::chunk_count(asked.rows);
        sums::total_norm(chunks, asked.width(), self.numbers)
    }

    // Each column's scale in place of its sum of squares.
    pub fn scales(self) -> [f64; 225]
        ensures { result ≡ scales_of ieee64 (asked_in self.entry.asked) self.entry.numbers.now }
    {
        let rows = self.asked.rows;
        let dims = self.asked.dims;
        let target = self.asked.seed_std;
        let mut scales = [0.0; 225];
        self.totals(dims, &mut scales);
        for c in 0..dims {
            scales[c] = columns::output::column_scale(rows, target, scales[c]);
        }
        scales
    }
}
