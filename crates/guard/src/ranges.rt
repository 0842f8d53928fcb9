// The ranges of a state's own fields: refusal 16 where one is left, whatever the graph and the memory are.
ghost use Rattle.std.specs.Prelude.{◌≡◌, ◌&&◌, leb, ltb};
ghost use Rattle.definition.specs.Arith.{ieee64};
ghost use Rattle.machine.specs.State.{last_stage};
ghost use Rattle.machine.specs.Ranges.{asked_sound, bound_sound, alpha_sound, progress_sound, counts_sound, order_sound, state_sound};
ghost use Rattle.machine.specs.Ready.{AskedReady};
ghost use Rattle.state.specs.Said.{asked_in, progress_in, counts_in, state_in};

use input::{SpectralParams, within};
use state::{Asked, Counts, Progress, Stage, State};

// What was asked, each number in its range: what the tests after `asked_sound` rest on, and the counts of calls.
#[derive(Clone, Copy)]
pub struct Sound {
    pub asked: Asked,
    ghost ready: { AskedReady (asked_in asked) },
}

const LAST_STAGE: usize = Stage::Ended as usize;

pub fn asked_sound(a: Asked) -> bool
    ensures { result ≡ asked_sound (asked_in a) }
{
    within(a.dims as u64, SpectralParams::DIMS_MOST)
        && (within(a.rows as u64, SpectralParams::ROWS_MOST as u64)
            && (a.entries <= SpectralParams::ENTRIES_MOST
                && (within(a.rounds as u64, SpectralParams::ROUNDS_MOST)
                    && (within(a.degree as u64, SpectralParams::DEGREE_MOST)
                        && input::test_seed_std(a.seed_std).is_ok()))))
}

// From 0.1 to 0.9995; a NaN is not.
fn bound_sound(b: f64) -> bool
    ensures { result ≡ bound_sound ieee64 b }
{
    0.1 <= b && b <= 0.9995
}

// Between 0 and 1; a NaN is not.
fn alpha_sound(a: f64) -> bool
    ensures { result ≡ alpha_sound ieee64 a }
{
    0.0 < a && a < 1.0
}

// A run is open in every stage but the first, where there is none yet, and the last.
pub fn is_open(stage: usize) -> bool
    ensures { result ≡ (leb 1 stage && ltb stage last_stage) }
{
    !matches!(Stage::from(stage), Stage::Empty | Stage::Ended)
}

// The blocks at hand, and the filter's numbers.
fn blocks_sound(p: Progress) -> bool
    ensures { result ≡ (ltb p.current 3 && (ltb p.previous 3 && (bound_sound ieee64 p.bound && alpha_sound ieee64 p.alpha))) }
{
    p.current < 3 && (p.previous < 3 && (bound_sound(p.bound) && alpha_sound(p.alpha)))
}

// From here on nothing overflows, since what was asked is in its ranges.
fn progress_sound(a: Sound, p: Progress) -> bool
    ensures { result ≡ progress_sound ieee64 (asked_in a.asked) (progress_in p) }
{
    let k = a.asked.width();
    p.stage <= LAST_STAGE
        && (p.round < a.asked.rounds
            && (p.pass < a.asked.degree && (p.column < k && (p.attempt <= 1 && blocks_sound(p)))))
}

// Counts no more than a whole run can reach.
fn counts_sound(a: Sound, counts: Counts) -> bool
    ensures { result ≡ counts_sound (asked_in a.asked) (counts_in counts) }
{
    let passes = a.asked.rounds * (a.asked.degree + 1);
    let columns = a.asked.rounds * a.asked.width();
    counts.passes <= passes
        && (counts.refreshed <= columns
            && (counts.zeroed <= columns && counts.isolated <= a.asked.rows))
}

// Every Ritz place below k. With `iter().all` (tried) the proof of its answer stayed open.
fn order_sound(a: Sound, order: [usize; 15]) -> bool
    ensures { result ≡ order_sound (asked_in a.asked) order }
{
    let k = a.asked.width();
    for place in order {
        if k <= place {
            return false;
        }
    }
    true
}

// The fields of a state that have a range. The state is lent, so that no test of a call copies its arrays.
pub fn fields_sound(s: &State) -> bool
    ensures { result ≡ state_sound ieee64 (state_in s.now) }
{
    let asked = s.asked;
    if !asked_sound(asked) {
        return false;
    }
    let a = Sound { asked };
    progress_sound(a, s.progress) && (counts_sound(a, s.counts) && order_sound(a, s.order))
}

pub fn state_sound(state: State) -> bool
    ensures { result ≡ state_sound ieee64 (state_in state) }
{
    fields_sound(&state)
}
