// The filter's passes and the plain pass: each is counted.
ghost use Rattle.std.specs.Prelude.{◌≡◌, cond, ◌+◌, ◌≤◌, ◌<◌, eqb};
ghost use Rattle.definition.specs.Arith.{ieee64};
ghost use Rattle.definition.specs.ChebyshevRayleighRitz.{next_alpha};
ghost use Rattle.definition.specs.Numbers.{degree_most};
ghost use Rattle.machine.specs.Ready.{StateReady};
ghost use Rattle.machine.specs.Closing.{moved_to, after_filter, pass_counted, with_counts};
ghost use Rattle.state.specs.Said.{asked_in, progress_in, counts_in, state_in};

use state::{Asked, Counts, Progress, Stage, State};

// The first pass of a round keeps alpha, which its bound has set.
fn alpha_after(pass: usize, bound: f64, alpha: f64) -> f64
    ensures { result ≡ cond (eqb pass 0) alpha (next_alpha ieee64 bound alpha) }
{
    if pass == 0 {
        alpha
    } else {
        numbers::next_alpha(bound, alpha)
    }
}

// The filter's next pass, or the first column; the block that was written is current.
fn after_filter(asked: Asked, progress: Progress) -> Progress
    requires { (progress.pass < asked.degree) × (asked.degree ≤ degree_most) }
    ensures { progress_in result ≡ after_filter ieee64 (asked_in asked) (progress_in progress) }
{
    let current = progress.current;
    let following = progress.pass + 1;
    let written = state::free_block(current, progress.previous);
    let alpha = alpha_after(progress.pass, progress.bound, progress.alpha);
    let next = Progress {
        current: written,
        previous: current,
        alpha,
        ..progress
    };
    if following < asked.degree {
        Progress {
            stage: Stage::FilterPass.number(),
            pass: following,
            ..next
        }
    } else {
        Progress {
            stage: Stage::NormBefore.number(),
            pass: 0,
            ..next
        }
    }
}

// A pass has ended, and is counted.
fn pass_closed(state: State, progress: Progress) -> State
    requires { StateReady ieee64 (state_in state) }
    ensures { state_in result ≡ with_counts ieee64 (progress_in progress) (pass_counted (counts_in state.counts)) (state_in state) }
{
    let counts = Counts {
        passes: state.counts.passes + 1,
        ..state.counts
    };
    State {
        progress,
        counts,
        ..state
    }
}

pub fn close_filter(state: State) -> State
    requires { StateReady ieee64 (state_in state) }
    ensures { state_in result ≡ with_counts ieee64
        (after_filter ieee64 (asked_in state.asked) (progress_in state.progress)) (pass_counted (counts_in state.counts)) (state_in state) }
{
    pass_closed(state, after_filter(state.asked, state.progress))
}

// The current block stays, so only the count tells that there was a pass.
pub fn close_plain(state: State) -> State
    requires { StateReady ieee64 (state_in state) }
    ensures { state_in result ≡ with_counts ieee64
        (moved_to ieee64 14 (progress_in state.progress)) (pass_counted (counts_in state.counts)) (state_in state) }
{
    let progress = Progress {
        stage: Stage::Products.number(),
        ..state.progress
    };
    pass_closed(state, progress)
}
