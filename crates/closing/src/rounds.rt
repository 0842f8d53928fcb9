// A round's end: symmetrize, Jacobi, the Ritz order and the next bound.
ghost use Rattle.std.specs.Prelude.{◌≡◌, ◌+◌, ◌*◌, ◌≤◌, ◌<◌, length, get_or};
ghost use Rattle.definition.specs.Arith.{ieee64};
ghost use Rattle.machine.specs.State.{wide};
ghost use Rattle.machine.specs.Ready.{AskedReady, StateReady};
ghost use Rattle.machine.specs.Closing.{after_products, after_round, round_recorded};
ghost use Rattle.state.specs.Said.{asked_in, progress_in, state_in};

use crate::record::record_round;
use crate::reduced::Partials;
use state::{Asked, Progress, Stage, State};

// The next round with its bound and the alpha that the bound sets, or the last stages.
fn after_products(
    asked: Asked,
    progress: Progress,
    matrix: &[f64; 225],
    order: [usize; 15],
) -> Progress
    requires asked_ready { AskedReady (asked_in asked) }
    requires round_lt_rounds { (progress.round < asked.rounds) × (get_or order (asked.dims + 1) 0 < wide (asked_in asked)) }
    ensures { progress_in result ≡ after_products ieee64 (asked_in asked) matrix.now order (progress_in progress) }
{
    let rounds = asked.rounds;
    let round = progress.round;
    let bound = ritz::bound_after(
        asked.width(),
        asked.dims,
        rounds as u64,
        round as u64,
        progress.bound,
        matrix,
        order,
    );
    let following = round + 1;
    let next = Progress {
        previous: progress.current,
        bound,
        ..progress
    };
    if following < rounds {
        Progress {
            stage: Stage::FilterPass.number(),
            round: following,
            alpha: numbers::first_alpha(bound),
            ..next
        }
    } else {
        Progress {
            stage: Stage::Rotate.number(),
            ..next
        }
    }
}

pub fn close_products(state: State, partials: Partials<'_>, ritz_record: &mut [f64]) -> State
    requires state_ready { StateReady ieee64 (state_in state) }
    requires asked_same { partials.asked ≡ state.asked }
    requires asked_in_bounds { state.asked.rounds * (wide (asked_in state.asked) + 1) ≤ length ritz_record.old }
    ensures result_value { state_in result ≡ after_round ieee64 (state_in state) partials.entry.numbers.now }
    ensures ritz_record_after { ritz_record.new ≡ round_recorded ieee64 (wide (asked_in state.asked)) state.progress.round state.progress.bound result.matrix result.order ritz_record.old }
{
    let asked = state.asked;
    let p = state.progress;
    let k = asked.width();
    let mut products = [0.0; 225];
    partials.totals(k * k, &mut products);
    let mut matrix = products;
    ritz::symmetrize(&mut matrix, k);
    let mut vectors = [0.0; 225];
    ritz::jacobi_in_place(&mut matrix, &mut vectors, k);
    let order = ritz::ritz_order(k, &matrix);
    let progress = after_products(asked, p, &matrix, order);
    // The bound that the round's filter used, and not the one that it sets.
    record_round(k, p.round, p.bound, &matrix, order, ritz_record);
    State {
        progress,
        totals: products,
        matrix,
        vectors,
        order,
        ..state
    }
}
