// The stages that only move on, and those that take a norm, totals or the isolated rows along.
ghost use Rattle.std.specs.Prelude.{◌≡◌, ◌*◌, ◌≤◌, length};
ghost use Rattle.definition.specs.Arith.{ieee64};
ghost use Rattle.definition.specs.Memory.{vector_of};
ghost use Rattle.definition.specs.SpectralEmbedding.{isolated_rows, root_norm};
ghost use Rattle.machine.specs.State.{wide};
ghost use Rattle.machine.specs.Closing.{isolated_counted, totals_of, scales_of, moved_to, with_norm, with_before, with_progress, with_counts, with_totals};
ghost use Rattle.state.specs.Said.{asked_in, progress_in, counts_in, state_in};
ghost use Rattle.state.specs.Stages.{number_of};

use crate::reduced::Partials;
use state::{Counts, Progress, Stage, State};

// To another stage, all else as it is. With `mut state` and a field set (tried, here and in each closing) a closing took 0.8 of the time, and 57,144
// bytes of stack in a C program, where bindings/c/stack.c allows 56,000.
pub fn moved_to(state: State, stage: Stage) -> State
    ensures { state_in result ≡ with_progress ieee64 (moved_to ieee64 (number_of stage) (progress_in state.progress)) (state_in state) }
{
    State {
        progress: Progress {
            stage: stage.number(),
            ..state.progress
        },
        ..state
    }
}

// To another stage, with the totals that it reads.
pub fn with_totals(state: State, stage: Stage, partials: Partials<'_>, width: usize) -> State
    requires { width ≤ wide (asked_in partials.asked) * wide (asked_in partials.asked) }
    ensures { state_in result ≡ with_totals ieee64 (moved_to ieee64 (number_of stage) (progress_in state.progress))
        (totals_of ieee64 (asked_in partials.entry.asked) width partials.entry.numbers.now) (state_in state) }
{
    let mut next = moved_to(state, stage);
    partials.totals(width, &mut next.totals);
    next
}

// To the last stage that works, with the scales of the output's columns.
pub fn with_scales(state: State, partials: Partials<'_>) -> State
    ensures { state_in result ≡ with_totals ieee64 (moved_to ieee64 19 (progress_in state.progress))
        (scales_of ieee64 (asked_in partials.entry.asked) partials.entry.numbers.now) (state_in state) }
{
    let mut next = moved_to(state, Stage::Scale);
    next.totals = partials.scales();
    next
}

// Degrees: the norm of the roots, which the v0 stage divides by, and how many rows are isolated by theirs.
pub fn close_degrees(state: State, v0: &[f64]) -> State
    requires { state.asked.rows ≤ length v0.now }
    ensures { state_in result ≡ with_counts ieee64
        (with_norm ieee64 2 (root_norm ieee64 state.asked.rows (vector_of ieee64.none v0.now)) (progress_in state.progress))
        (isolated_counted (isolated_rows ieee64 state.asked.rows (vector_of ieee64.none v0.now)) (counts_in state.counts)) (state_in state) }
{
    let rows = state.asked.rows;
    let progress = Progress {
        stage: Stage::Edges.number(),
        norm: sums::root_norm(rows, v0),
        ..state.progress
    };
    let counts = Counts {
        isolated: sums::isolated_rows(rows, v0),
        ..state.counts
    };
    State {
        progress,
        counts,
        ..state
    }
}

// The norm of a column before it is projected. It and the one below stay two functions: they differ in the field that they set, which no
// parameter can name.
pub fn close_norm_before(state: State, norm: f64) -> State
    ensures { state_in result ≡ with_progress ieee64 (with_before ieee64 7 norm (progress_in state.progress)) (state_in state) }
{
    let progress = Progress {
        stage: Stage::FirstDots.number(),
        before: norm,
        ..state.progress
    };
    State { progress, ..state }
}

// The norm of a column after it was projected twice.
pub fn close_norm_after(state: State, norm: f64) -> State
    ensures { state_in result ≡ with_progress ieee64 (with_norm ieee64 12 norm (progress_in state.progress)) (state_in state) }
{
    let progress = Progress {
        stage: Stage::Write.number(),
        norm,
        ..state.progress
    };
    State { progress, ..state }
}
