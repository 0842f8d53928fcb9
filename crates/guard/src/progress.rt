// Progress for people: the calls accepted so far in whole stages, and those that the run owes if no further column is refreshed.
// A damaged state, and one where no run was opened, answers 0.
ghost use Rattle.std.specs.Prelude.{◌≡◌, not, ◌&&◌, ◌*◌, ◌≤◌, eqb};
ghost use Rattle.definition.specs.Arith.{ieee64};
ghost use Rattle.machine.specs.State.{wide, stage_of};
ghost use Rattle.machine.specs.Ranges.{state_sound};
ghost use Rattle.machine.specs.Progress.{round_stages, in_round, run_stages, closed_stages_by, calls_accepted, calls_owed};
ghost use Rattle.state.specs.Said.{asked_in, progress_in, state_in};
ghost use Rattle.guard.specs.Counted.{Counted, Begun, stages_most};

use crate::ranges::{Sound, fields_sound};
use state::{Progress, Stage, State};

// The numbers of the stages with which a group of them begins. Stages that follow one another have numbers that do, so that a group's are
// counted by their numbers.
const EMPTY: usize = Stage::Empty as usize;

const DEGREES: usize = Stage::Degrees as usize;

const FILTER_PASS: usize = Stage::FilterPass as usize;

const NORM_BEFORE: usize = Stage::NormBefore as usize;

const PLAIN_PASS: usize = Stage::PlainPass as usize;

const ROTATE: usize = Stage::Rotate as usize;

// The stages of a round in which no column is refreshed.
fn round_stages(a: Sound) -> usize
    ensures { result ≡ round_stages (asked_in a.asked) }
{
    a.asked.degree + 2 + 7 * a.asked.width()
}

// The stages closed after the four first ones, so many rounds and i stages more. A column refreshed had its seven stages twice.
fn after_rounds(a: Sound, rounds: usize, refreshed: usize, i: usize) -> usize
    requires { Counted (asked_in a.asked) rounds refreshed i }
    ensures value { result ≡ in_round (asked_in a.asked) rounds refreshed i }
    ensures upper_bound { result ≤ stages_most }
{
    4 + rounds * round_stages(a) + 7 * refreshed + i
}

// The stages of a whole run with so many columns refreshed.
fn run_stages(a: Sound, refreshed: usize) -> usize
    requires { refreshed ≤ a.asked.rounds * wide (asked_in a.asked) }
    ensures value { result ≡ run_stages (asked_in a.asked) refreshed }
    ensures upper_bound { result ≤ stages_most }
{
    after_rounds(a, a.asked.rounds, refreshed, 5)
}

// The stages closed before the one at hand: of the four first ones, of a round, or of the last five.
fn closed_stages(a: Sound, p: Progress, refreshed: usize) -> usize
    requires { Begun (asked_in a.asked) (progress_in p) refreshed }
    ensures value { result ≡ closed_stages_by ieee64 (stage_of p.stage) (asked_in a.asked) (progress_in p) refreshed }
    ensures upper_bound { result ≤ stages_most }
{
    let stage = p.stage;
    if stage < FILTER_PASS {
        return stage - DEGREES;
    }
    if ROTATE <= stage {
        return after_rounds(a, a.asked.rounds, refreshed, stage - ROTATE);
    }
    if stage == FILTER_PASS {
        return after_rounds(a, p.round, refreshed, p.pass);
    }
    if stage < PLAIN_PASS {
        let i = a.asked.degree + 7 * p.column + (stage - NORM_BEFORE);
        return after_rounds(a, p.round, refreshed, i);
    }
    let i = a.asked.degree + 7 * a.asked.width() + (stage - PLAIN_PASS);
    after_rounds(a, p.round, refreshed, i)
}

fn has_run(state: &State) -> bool
    ensures { result ≡ (state_sound ieee64 (state_in state.now) && not (eqb state.now.progress.stage 0)) }
{
    fields_sound(state) && state.progress.stage != EMPTY
}

pub fn calls_accepted(state: State) -> usize
    ensures { result ≡ calls_accepted ieee64 (state_in state) }
{
    if !has_run(&state) {
        return 0;
    }
    let a = Sound { asked: state.asked };
    let p = state.progress;
    let counts = state.counts;
    let closed = closed_stages(a, p, counts.refreshed);
    closed * (input::chunk_count(a.asked.rows) + 1)
}

pub fn calls_owed(state: State) -> usize
    ensures { result ≡ calls_owed ieee64 (state_in state) }
{
    if !has_run(&state) {
        return 0;
    }
    let a = Sound { asked: state.asked };
    let p = state.progress;
    let counts = state.counts;
    let run = run_stages(a, counts.refreshed);
    let closed = closed_stages(a, p, counts.refreshed);
    run.saturating_sub(closed) * (input::chunk_count(a.asked.rows) + 1)
}
