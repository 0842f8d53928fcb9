// A run from its graph to its end: an opening that must be refused, the opening, and the calls, with a stop in the middle at which the lists
// leave their places and come back. Before each call the Ritz record is looked at, where a call was accepted since the last look.
use crate::calls::Lent;
use crate::cases::Case;
use crate::graph::Graph;
use crate::lists::{Lists, Sizes};
use crate::plan::{Call, Given, Order, Refusal, Spoil, Target, Walk};
use crate::record::Looks;
use crate::{calls, digest, record};
use state::{Answer, Counts, State};

// The Ritz record's place among the lent lists.
const RITZ_RECORD: usize = 10;

// More steps than a run has, and so few that a run which never ends is soon told.
const STEPS_MOST: usize = 100000;

// A run on its way: how much of the lists it is compared by, its state, the one of a refused opening, the walk, and the looks at its record.
#[derive(Drop)]
struct Run {
    case: Case,
    sizes: Sizes,
    state: State,
    empty: State,
    walk: Walk,
    looks: Looks,
}

// What a run comes to: the oracle's digest of the seed, a digest of the state and all lists, the state's counts, and what was counted on the
// walk and in the looks.
#[derive(Clone, Copy)]
pub struct End {
    pub digest: u64,
    pub all: u64,
    pub counts: Counts,
    pub walk: Walk,
    pub looks: Looks,
}

// After how many steps a run stops and goes on: between a chunk and the next one of its stage, or closing; never where a list has no room
// for its numbers twice. A shuffled run of two rounds is in its second one by then, so that the Ritz record has numbers that leave.
fn steps_first(case: Case, order: Order) -> Option<usize> {
    if 4097 < case.rows {
        return None;
    }
    match order {
        Order::OddFirst => Some(196),
        Order::Shuffled => Some(if case.rounds == 1 { 388 } else { 1780 }),
        _ => None,
    }
}

// As many numbers of the record as a call is lent: too few where that is spoiled, in a downward run no more than are needed, else the whole
// list.
fn lent_record(case: Case, order: Order, spoil: Option<Spoil>) -> usize {
    match spoil {
        Some(Spoil::ShortRecord) => case.record().saturating_sub(1),
        Some(Spoil::NoRecord) => 0,
        _ if order == Order::Downward => case.record(),
        _ => usize::MAX,
    }
}

// An opening is lent its graph's lists.
fn lent_to_open(case: Case, order: Order, spoil: Option<Spoil>, graph: &Graph) -> Lent {
    Lent {
        starts: case.rows.saturating_add(1),
        entries: graph.entries,
        record: lent_record(case, order, spoil),
    }
}

// What the Ritz record lacks in the opening that must be refused.
fn lack_of_record(order: Order) -> Option<Spoil> {
    match order {
        Order::OddFirst => Some(Spoil::ShortRecord),
        Order::Shuffled => Some(Spoil::NoRecord),
        _ => None,
    }
}

// The opening that must be refused asks for D = 0, but where it lends too short a record. It answers the empty state.
fn refused(case: Case, order: Order, graph: &Graph, lists: &mut Lists) -> Run {
    let lack = lack_of_record(order);
    let (dims, refusal) = match lack {
        None => (0, Refusal::NoDims),
        Some(_) => (case.dims, Refusal::Short(RITZ_RECORD)),
    };
    let lent = lent_to_open(case, order, lack, graph);
    let answer = calls::open(case, dims, lent, graph, lists);
    let mut walk = Walk::new(order, case.chunks());
    walk.judge(Refusal::is_met(Some(refusal), answer.verdict));
    Run {
        case,
        sizes: Sizes::of(case, graph.entries),
        state: answer.state,
        empty: answer.state,
        walk,
        looks: Looks::new(),
    }
}

impl Run {
    // The opening must be accepted.
    fn open(&mut self, graph: &Graph, lists: &mut Lists) {
        let case = self.case;
        let lent = lent_to_open(case, self.walk.order, None, graph);
        let answer = calls::open(case, case.dims, lent, graph, lists);
        self.state = answer.state;
        self.walk.judge(Refusal::is_met(None, answer.verdict));
    }

    // The Ritz record is looked at after the opening, and after each accepted call.
    fn look(&mut self, lists: &Lists) {
        if self.looks.made <= self.walk.accepted {
            let finished = record::finished(self.case, self.state.progress);
            self.looks.look(&lists.ritz_record, finished);
        }
    }

    fn given(&self, call: Call) -> State {
        match call.given {
            Given::Own => self.state,
            Given::Empty => self.empty,
            Given::Damaged(damage) => damage.done_to(self.state),
        }
    }

    fn answer(&self, call: Call, given: State, graph: &Graph, lists: &mut Lists) -> Answer {
        let starts = match call.spoil {
            Some(Spoil::Starts) => self.case.rows,
            _ => usize::MAX,
        };
        let lent = Lent {
            starts,
            entries: usize::MAX,
            record: lent_record(self.case, self.walk.order, call.spoil),
        };
        match call.target {
            Target::Chunk(number) => calls::chunk(given, number, lent, graph, lists),
            Target::Closing => calls::close(given, lent, graph, lists),
        }
    }

    // A call must answer its verdict, and the state that it was given. An accepted closing alone may answer another one.
    fn is_right(call: Call, given: State, answer: Answer) -> bool {
        Refusal::is_met(call.refusal, answer.verdict)
            && (call.may_change_state()
                || digest::of_state(answer.state) == digest::of_state(given))
    }

    // A call that is watched must leave the lists as they were. A refused one leaves the state as it was.
    fn call(&mut self, call: Call, graph: &Graph, lists: &mut Lists) {
        let sizes = self.sizes;
        let before = call.is_watched.then(|| lists.digest(sizes));
        let given = self.given(call);
        lists.spoil(call.spoil);
        let answer = self.answer(call, given, graph, lists);
        lists.spoil(call.spoil);
        let is_kept = before.is_none_or(|digest| lists.digest(sizes) == digest);
        self.walk
            .judge(is_kept && Run::is_right(call, given, answer));
        self.walk.count(call);
        if call.refusal.is_none() {
            self.state = answer.state;
        }
    }

    // A step, which may have no call.
    fn step(&mut self, graph: &Graph, lists: &mut Lists) {
        self.look(lists);
        match self.walk.planned(&self.state) {
            Some(call) => self.call(call, graph, lists),
            None => self.walk.pass(),
        }
    }

    // The lists leave their places and come back. While they were away, something else must have stood in their places, and in those of the
    // Ritz record where a round has finished.
    fn stop(&mut self, lists: &mut Lists) {
        let before = lists.digest(self.sizes);
        lists.change(self.sizes);
        let is_record_away = self.looks.kept == 0 || !self.looks.is_kept(&lists.ritz_record);
        let is_away = lists.digest(self.sizes) != before;
        lists.change(self.sizes);
        self.walk.judge(is_away && is_record_away);
    }

    fn end(&self, lists: &Lists) -> End {
        let all = lists.digest(Sizes::ALL);
        End {
            digest: digest::of_front(&lists.output, self.case.seed()),
            all: digest::with_number(all, digest::of_state(self.state)),
            counts: self.state.counts,
            walk: self.walk,
            looks: self.looks,
        }
    }
}

// A case's run in an order of its chunks.
pub fn ran(case: Case, order: Order, graph: &mut Graph, lists: &mut Lists) -> End {
    graph.make(case);
    lists.fill();
    let mut run = refused(case, order, graph, lists);
    run.open(graph, lists);
    let stop = steps_first(case, order);
    for steps in 0..STEPS_MOST {
        if run.walk.is_over(&run.state) {
            break;
        }
        if stop == Some(steps) {
            run.stop(lists);
        }
        run.step(graph, lists);
    }
    run.end(lists)
}
