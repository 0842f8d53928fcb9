// What closing a stage does: the serial part, where the run goes on, and a round's places of the Ritz record. Document 01, "The held run".
#![tactic(auto)]

ghost use Rattle.std.specs.Prelude.{◌≡◌, ◌+◌, ◌*◌, ◌≤◌, length};
ghost use Rattle.definition.specs.Arith.{ieee64};
ghost use Rattle.machine.specs.State.{stage_of, wide, chunk_count};
ghost use Rattle.machine.specs.Ready.{StateReady};
ghost use Rattle.machine.specs.Closing.{closed_by, record_after};
ghost use Rattle.state.specs.Said.{asked_in, state_in};

use reduced::Partials;
use state::{Stage, State};

mod moves; // moves.rt: the stages that only move on, or take a norm, totals or the isolated rows along
mod passes; // passes.rt: the filter's passes and the plain pass
mod record; // record.rt: a round's places of the Ritz record
mod reduced; // reduced.rt: totals, norms and scales, from the partials
mod rounds; // rounds.rt: a round's end
mod written; // written.rt: a column that was written

// The state after the stage that it is in has closed. Only degrees read v0, where the rows' roots are then, and only the products write: their
// round's places of the Ritz record.
// Where no run is open there is nothing to close, and the state stays as it is.
pub fn close_stage(state: State, v0: &[f64], partials: &[f64], ritz_record: &mut [f64]) -> State
    requires state_ready { StateReady ieee64 (state_in state) }
    requires rows_in_bounds { (state.asked.rows ≤ length v0.now)
        × (chunk_count (asked_in state.asked) * wide (asked_in state.asked) * wide (asked_in state.asked) ≤ length partials.now) }
    requires asked_in_bounds { state.asked.rounds * (wide (asked_in state.asked) + 1) ≤ length ritz_record.old }
    ensures result_value { state_in result ≡ closed_by ieee64 (stage_of state.progress.stage) (state_in state) v0.now partials.now }
    ensures ritz_record_after { ritz_record.new ≡ record_after ieee64 (state_in state) (state_in result) ritz_record.old }
{
    let asked = state.asked;
    let partials = Partials {
        asked,
        numbers: partials,
    };
    let stage = Stage::from(state.progress.stage);
    match stage {
        Stage::Degrees => moves::close_degrees(state, v0),
        Stage::Edges => moves::moved_to(state, Stage::V0),
        Stage::V0 => moves::moved_to(state, Stage::StartBlock),
        Stage::StartBlock => moves::moved_to(state, Stage::FilterPass),
        Stage::FilterPass => passes::close_filter(state),
        Stage::NormBefore => moves::close_norm_before(state, partials.norm()),
        Stage::FirstDots => moves::with_totals(
            state,
            Stage::FirstSubtract,
            partials,
            state.progress.column + 1,
        ),
        Stage::FirstSubtract => moves::moved_to(state, Stage::SecondDots),
        Stage::SecondDots => moves::with_totals(
            state,
            Stage::SecondSubtract,
            partials,
            state.progress.column + 1,
        ),
        Stage::SecondSubtract => moves::moved_to(state, Stage::NormAfter),
        Stage::NormAfter => moves::close_norm_after(state, partials.norm()),
        Stage::Write => written::close_write(state),
        Stage::PlainPass => passes::close_plain(state),
        Stage::Products => rounds::close_products(state, partials, ritz_record),
        Stage::Rotate => moves::moved_to(state, Stage::Sums),
        Stage::Sums => moves::with_totals(state, Stage::Centre, partials, asked.dims),
        Stage::Centre => moves::moved_to(state, Stage::Squares),
        Stage::Squares => moves::with_scales(state, partials),
        Stage::Scale => moves::moved_to(state, Stage::Ended),
        Stage::Empty | Stage::Ended => state,
    }
}
