// States that refusal 16 must meet: each has one field outside its range.
use state::State;

// The field that is damaged.
#[derive(Clone, Copy, PartialEq, Eq, Debug)]
pub enum Damage {
    Stage,
    Round,
    Pass,
    Column,
    Attempt,
    Current,
    Previous,
    Bound,
    Alpha,
    Dims,
    Rows,
    Entries,
    SeedStd,
    Isolated,
    Passes,
    Order,
}

impl Damage {
    pub const ALL: [Damage; 16] = [
        Damage::Stage,
        Damage::Round,
        Damage::Pass,
        Damage::Column,
        Damage::Attempt,
        Damage::Current,
        Damage::Previous,
        Damage::Bound,
        Damage::Alpha,
        Damage::Dims,
        Damage::Rows,
        Damage::Entries,
        Damage::SeedStd,
        Damage::Isolated,
        Damage::Passes,
        Damage::Order,
    ];

    pub fn done_to(self, state: State) -> State {
        let mut s = state;
        match self {
            Damage::Stage => s.progress.stage = 21,
            Damage::Round => s.progress.round = s.asked.rounds,
            Damage::Pass => s.progress.pass = s.asked.degree,
            Damage::Column => s.progress.column = s.asked.dims.saturating_add(8),
            Damage::Attempt => s.progress.attempt = 2,
            Damage::Current => s.progress.current = 3,
            Damage::Previous => s.progress.previous = 3,
            Damage::Bound => s.progress.bound = f64::NAN,
            Damage::Alpha => s.progress.alpha = 1.0,
            Damage::Dims => s.asked.dims = 8,
            Damage::Rows => s.asked.rows = 0,
            Damage::Entries => s.asked.entries = 67108865,
            Damage::SeedStd => s.asked.seed_std = 0.0,
            Damage::Isolated => s.counts.isolated = s.asked.rows.saturating_add(1),
            Damage::Passes => s.counts.passes = 1001001,

            // A place of the Ritz order that no column has.
            Damage::Order => s.order[14] = s.asked.dims.saturating_add(8),
        }
        s
    }
}
