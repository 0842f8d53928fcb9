// Which call comes next in a run, and what it must answer. A stage is walked in steps of four: three at which a call may be offered that
// must be refused, and one at which a chunk, or at last closing, must be accepted.
use crate::damage::Damage;
use input::Verdict;
use state::State;
use std::fmt;
use std::ops::AddAssign;

// The order of a run's chunks. Where the odd ones come first, closing is offered before each chunk; where they are shuffled, anew in each
// stage, calls that must be refused, of every kind, come between them.
#[derive(Clone, Copy, PartialEq, Eq, Debug)]
pub enum Order {
    Upward,
    Downward,
    OddFirst,
    Shuffled,
}

impl Order {
    // Those of the runs that are compared with the upward one.
    pub const LATER: [Order; 3] = [Order::Downward, Order::OddFirst, Order::Shuffled];
}

// The stages of the passes, as document 01 numbers them and not as the library does: that is tried here.
const PASSES: [usize; 2] = [5, 13];

// The stage of a run that has ended.
const ENDED: usize = 20;

// Steps at which a run that has ended is offered calls.
const STEPS_AFTER: usize = 3;

// What is called: a chunk of the stage at hand, by its number, or closing.
#[derive(Clone, Copy, PartialEq, Eq, Debug)]
pub enum Target {
    Chunk(usize),
    Closing,
}

// The state that a call is given: the run's own, the one of a refused opening, or its own with a damage.
#[derive(Clone, Copy, PartialEq, Eq, Debug)]
pub enum Given {
    Own,
    Empty,
    Damaged(Damage),
}

// What is spoiled while a call is made, and mended after it.
#[derive(Clone, Copy, PartialEq, Eq, Debug)]
pub enum Spoil {
    Mark,
    Edge,
    Starts,
    ShortRecord,
    NoRecord,
}

// Why a call must be refused. An opening: it asks for D = 0, or one of the lent lists is too short. Another call: there is no such chunk; a
// chunk is done, or is not; no run is open; the state or the lists are not as they must be. Their numbers, and those of the stages here, are
// document 01's, told apart from the library that is tried.
#[derive(Clone, Copy, PartialEq, Eq, Debug)]
pub enum Refusal {
    NoDims,
    Short(usize),
    NoChunk(usize),
    Done(usize),
    Undone(usize),
    NotOpen,
    Unfit,
}

impl Refusal {
    // Document 01's number and place.
    fn verdict(self) -> (u64, u64) {
        match self {
            Refusal::NoDims => (1, 0),
            Refusal::Short(list) => (11, list as u64),
            Refusal::NoChunk(chunk) => (12, chunk as u64),
            Refusal::Done(chunk) => (13, chunk as u64),
            Refusal::Undone(chunk) => (14, chunk as u64),
            Refusal::NotOpen => (15, 0),
            Refusal::Unfit => (16, 0),
        }
    }

    // Whether a call was refused so, or was accepted where it must be.
    pub fn is_met(wanted: Option<Self>, verdict: Verdict) -> bool {
        let (number, place) = wanted.map_or((0, 0), |refusal| refusal.verdict());
        verdict.number == number && verdict.place == place
    }
}

// A call, the refusal that it must meet, and whether all lists are compared before and after it.
#[derive(Clone, Copy)]
pub struct Call {
    pub target: Target,
    pub given: Given,
    pub spoil: Option<Spoil>,
    pub refusal: Option<Refusal>,
    pub is_watched: bool,
}

impl Call {
    fn accepted(target: Target) -> Self {
        Call {
            target,
            given: Given::Own,
            spoil: None,
            refusal: None,
            is_watched: false,
        }
    }

    fn refused(target: Target, refusal: Refusal) -> Self {
        Call {
            refusal: Some(refusal),
            ..Call::accepted(target)
        }
    }

    fn with_state(self, given: Given) -> Self {
        Call { given, ..self }
    }

    fn spoiled(self, spoil: Spoil) -> Self {
        Call {
            spoil: Some(spoil),
            ..self
        }
    }

    fn watched(self, is_watched: bool) -> Self {
        Call { is_watched, ..self }
    }

    pub fn may_change_state(self) -> bool {
        self.target == Target::Closing && self.refusal.is_none()
    }
}

// Refused calls of open and ended runs, by their number.
#[derive(Clone, Copy, Default)]
pub struct Refused {
    by12: usize,
    by13: usize,
    by14: usize,
    by15: usize,
    by16: usize,
}

impl Refused {
    fn count(&mut self, refusal: Refusal) {
        let counted = match refusal {
            Refusal::NoDims | Refusal::Short(_) => return,
            Refusal::NoChunk(_) => &mut self.by12,
            Refusal::Done(_) => &mut self.by13,
            Refusal::Undone(_) => &mut self.by14,
            Refusal::NotOpen => &mut self.by15,
            Refusal::Unfit => &mut self.by16,
        };
        *counted = counted.saturating_add(1);
    }

    pub fn total(self) -> usize {
        [self.by12, self.by13, self.by14, self.by15, self.by16]
            .iter()
            .fold(0, |sum: usize, x| sum.saturating_add(*x))
    }
}

impl AddAssign for Refused {
    fn add_assign(&mut self, other: Refused) {
        self.by12 = self.by12.saturating_add(other.by12);
        self.by13 = self.by13.saturating_add(other.by13);
        self.by14 = self.by14.saturating_add(other.by14);
        self.by15 = self.by15.saturating_add(other.by15);
        self.by16 = self.by16.saturating_add(other.by16);
    }
}

impl fmt::Display for Refused {
    fn fmt<W: fmt::Write>(&self, f: &mut fmt::Formatter<W>) -> fmt::Result {
        write!(f, "12={} 13={} 14={} ", self.by12, self.by13, self.by14)?;
        write!(f, "15={} 16={}", self.by15, self.by16)
    }
}

// ---- the order of the chunks

fn mixed(x: u64) -> u64 {
    let a = (x ^ 0x9e37_79b9_7f4a_7c15).wrapping_mul(0xbf58_476d_1ce4_e5b9);
    let b = (a ^ (a >> 29)).wrapping_mul(0x94d0_49bb_1331_11eb);
    b >> 32
}

fn odd_first(chunks: usize, turn: usize) -> usize {
    let odd = chunks / 2;
    if turn < odd {
        return turn * 2 + 1;
    }
    (turn - odd).saturating_mul(2)
}

// Counted from the last chunk.
fn mirrored(chunks: usize, place: usize) -> usize {
    chunks.saturating_sub(1).saturating_sub(place)
}

fn shuffled(chunks: usize, by: u64, turn: usize) -> usize {
    let place = turn.saturating_add((by % 0x1_0000) as usize);
    let place = place.checked_rem(chunks).unwrap_or(0);
    if by / 0x1_0000 % 2 == 0 {
        return place;
    }
    mirrored(chunks, place)
}

// At most four chunks are told apart.
fn bit_of(chunk: usize) -> u64 {
    1 << chunk.min(3)
}

// ---- refused calls

// The Ritz record one number too short, and empty.
fn short_record(by: u64) -> Call {
    let (target, spoil) = match by % 4 {
        0 => (Target::Chunk(0), Spoil::ShortRecord),
        1 => (Target::Chunk(0), Spoil::NoRecord),
        2 => (Target::Closing, Spoil::ShortRecord),
        _ => (Target::Closing, Spoil::NoRecord),
    };
    Call::refused(target, Refusal::Unfit).spoiled(spoil)
}

// The first entry's column is read in the passes alone.
fn bad_edge(state: &State) -> Option<Call> {
    let is_pass = PASSES.contains(&state.progress.stage);
    if !is_pass || state.asked.entries == 0 {
        return None;
    }
    let call = Call::refused(Target::Chunk(0), Refusal::Unfit);
    Some(call.spoiled(Spoil::Edge))
}

// ---- the walk

// Where a run is: its order, its number of chunks, stages closed, the step in the stage, the chunks done in it as bits; and what is counted.
#[derive(Clone, Copy)]
pub struct Walk {
    pub order: Order,
    chunks: usize,
    stages: usize,
    step: usize,
    done: u64,
    pub accepted: usize,
    pub refused: Refused,
    pub wrong: usize,
}

impl Walk {
    pub fn new(order: Order, chunks: usize) -> Self {
        Walk {
            order,
            chunks,
            stages: 0,
            step: 0,
            done: 0,
            accepted: 0,
            refused: Refused::default(),
            wrong: 0,
        }
    }

    // The chunk that comes at a turn of a stage.
    fn chosen(&self, turn: usize) -> usize {
        match self.order {
            Order::Upward => turn,
            Order::Downward => mirrored(self.chunks, turn),
            Order::OddFirst => odd_first(self.chunks, turn),
            Order::Shuffled => shuffled(self.chunks, mixed(self.stages as u64), turn),
        }
    }

    // The call that must be accepted.
    fn owed(&self, turn: usize) -> Call {
        if turn < self.chunks {
            return Call::accepted(Target::Chunk(self.chosen(turn)));
        }
        Call::accepted(Target::Closing)
    }

    // Closing before all chunks are done.
    fn early(&self, turn: usize) -> Option<Call> {
        if self.chunks <= turn {
            return None;
        }
        let undone = self.done.trailing_ones() as usize;
        Some(Call::refused(Target::Closing, Refusal::Undone(undone)))
    }

    // The chunk of the turn before, once more.
    fn again(&self, turn: usize) -> Option<Call> {
        let chunk = self.chosen(turn.checked_sub(1)?);
        Some(Call::refused(Target::Chunk(chunk), Refusal::Done(chunk)))
    }

    // A call that an open run must refuse, by a number that is drawn.
    fn drawn(&self, turn: usize, by: u64, state: &State) -> Option<Call> {
        let damaged = Given::Damaged(Damage::ALL[(by / 16 % 16) as usize]);
        let last = usize::MAX;
        let past = Target::Chunk(self.chunks);
        let unfit = Call::refused(Target::Chunk(0), Refusal::Unfit);
        let unclosed = Call::refused(Target::Closing, Refusal::Unfit);
        let call = match by % 16 {
            0 => Call::refused(past, Refusal::NoChunk(self.chunks)),
            1 => Call::refused(Target::Chunk(last), Refusal::NoChunk(last)),
            2 | 3 => return self.again(turn),
            4 => return self.early(turn),
            5 => Call::refused(Target::Chunk(0), Refusal::NotOpen).with_state(Given::Empty),
            6 => Call::refused(Target::Closing, Refusal::NotOpen).with_state(Given::Empty),
            7 | 8 => unfit.with_state(damaged),
            9 => unclosed.with_state(damaged),
            10 => unfit.spoiled(Spoil::Mark),
            11 => unclosed.spoiled(Spoil::Mark),
            12 => return bad_edge(state),
            13 => Call::refused(past, Refusal::Unfit).spoiled(Spoil::Starts),
            14 => unclosed.spoiled(Spoil::Starts),
            _ => short_record(by / 16),
        };
        Some(call)
    }

    // A run that has ended refuses every call.
    fn after_end(&self) -> Option<Call> {
        let target = match self.step {
            0 => Target::Chunk(0),
            1 => Target::Chunk(self.chunks),
            2 => Target::Closing,
            _ => return None,
        };
        let call = Call::refused(target, Refusal::NotOpen);
        Some(call.watched(target == Target::Closing))
    }

    // What is offered at a part of a turn, before the call that must be accepted.
    fn offered(&self, turn: usize, part: usize, state: &State) -> Option<Call> {
        let by = mixed((self.stages as u64) << 16 ^ self.step as u64);
        match (self.order, part) {
            (Order::OddFirst, 0) => Some(self.early(turn)?.watched(by % 32 == 0)),
            (Order::Shuffled, 0 | 1) => {
                let call = self.drawn(turn, by, state)?;
                Some(call.watched(by / 4096 % 8 == 0))
            }
            _ => None,
        }
    }

    // The call that comes at the step, where there is one.
    pub fn planned(&self, state: &State) -> Option<Call> {
        if state.progress.stage == ENDED {
            return self.after_end();
        }
        let turn = self.step / 4;
        match self.step % 4 {
            3 => Some(self.owed(turn)),
            part => self.offered(turn, part, state),
        }
    }

    pub fn is_over(&self, state: &State) -> bool {
        state.progress.stage == ENDED && STEPS_AFTER <= self.step
    }

    // ---- what is counted

    // On by a step at which no call was made, or a call was refused.
    pub fn pass(&mut self) {
        self.step = self.step.saturating_add(1);
    }

    // On by a call.
    pub fn count(&mut self, call: Call) {
        match (call.refusal, call.target) {
            (Some(refusal), _) => {
                self.refused.count(refusal);
                self.pass();
            }
            (None, Target::Chunk(chunk)) => {
                self.done |= bit_of(chunk);
                self.accepted = self.accepted.saturating_add(1);
                self.pass();
            }
            (None, Target::Closing) => self.close(),
        }
    }

    // The next stage begins with nothing done.
    fn close(&mut self) {
        self.stages = self.stages.saturating_add(1);
        self.step = 0;
        self.done = 0;
        self.accepted = self.accepted.saturating_add(1);
    }

    pub fn judge(&mut self, is_right: bool) {
        if !is_right {
            self.wrong = self.wrong.saturating_add(1);
        }
    }
}
