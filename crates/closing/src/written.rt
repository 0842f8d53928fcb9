// A column that was written: kept, refreshed or zeroed.
ghost use Rattle.std.specs.Prelude.{◌≡◌, ◌+◌, ◌≤◌, ◌<◌};
ghost use Rattle.definition.specs.Arith.{ieee64};
ghost use Rattle.machine.specs.State.{wide};
ghost use Rattle.machine.specs.Work.{ending_in};
ghost use Rattle.machine.specs.Ready.{StateReady};
ghost use Rattle.machine.specs.Closing.{next_column, tried_again, after_write, end_counted, with_counts};
ghost use Rattle.state.specs.Said.{asked_in, progress_in, counts_in, state_in};

use numbers::Ending;
use state::{Asked, Counts, Progress, Stage, State};

// The next column, or after the last one the plain pass.
fn next_column(asked: Asked, progress: Progress) -> Progress
    requires { (progress.column < wide (asked_in asked)) × (wide (asked_in asked) ≤ 15) }
    ensures { progress_in result ≡ next_column ieee64 (asked_in asked) (progress_in progress) }
{
    let following = progress.column + 1;
    let next = Progress {
        attempt: 0,
        ..progress
    };
    if following < asked.width() {
        Progress {
            stage: Stage::NormBefore.number(),
            column: following,
            ..next
        }
    } else {
        Progress {
            stage: Stage::PlainPass.number(),
            column: 0,
            ..next
        }
    }
}

// The column again, with fresh numbers.
fn tried_again(progress: Progress) -> Progress
    ensures { progress_in result ≡ tried_again ieee64 (progress_in progress) }
{
    Progress {
        stage: Stage::NormBefore.number(),
        attempt: 1,
        ..progress
    }
}

pub fn close_write(state: State) -> State
    requires { StateReady ieee64 (state_in state) }
    ensures { state_in result ≡ with_counts ieee64
        (after_write ieee64 (ending_in ieee64 (progress_in state.progress)) (asked_in state.asked) (progress_in state.progress))
        (end_counted ieee64 (ending_in ieee64 (progress_in state.progress)) (counts_in state.counts)) (state_in state) }
{
    let asked = state.asked;
    let p = state.progress;
    let counts = state.counts;
    let end = numbers::collapse_test(p.before, p.norm, p.attempt == 1);
    match end {
        Ending::Kept(_) => State {
            progress: next_column(asked, p),
            ..state
        },
        Ending::Refreshed => {
            let refreshed = counts.refreshed + 1;
            State {
                progress: tried_again(p),
                counts: Counts {
                    refreshed,
                    ..counts
                },
                ..state
            }
        }
        Ending::Zeroed => {
            let zeroed = counts.zeroed + 1;
            State {
                progress: next_column(asked, p),
                counts: Counts { zeroed, ..counts },
                ..state
            }
        }
    }
}
