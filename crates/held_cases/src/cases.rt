// The cases: the oracle's `big` graphs with the answers that oracle/vectors/big.txt stores, and document 01's case 11.
use input::SpectralParams;
use std::fmt;

// A case, and what its run must come to.
#[derive(Clone, Copy)]
pub struct Case {
    pub rows: usize,
    pub number: u64,
    pub dims: usize,
    pub rounds: usize,
    pub degree: usize,
    pub digest: u64,
    pub refreshed: usize,
    pub zeroed: usize,
    pub isolated: usize,
}

// What most cases have in common: nothing is refreshed, zeroed or isolated.
const PLAIN: Case = Case {
    rows: 4096,
    number: 1,
    dims: 1,
    rounds: 1,
    degree: 1,
    digest: 0x63d9_a42c_2f24_596c,
    refreshed: 0,
    zeroed: 0,
    isolated: 0,
};

pub const CASES: [Case; 8] = [
    Case {
        rows: 1,
        number: 4,
        digest: 0xa8c7_f832_281a_39c5,
        refreshed: 8,
        zeroed: 8,
        isolated: 1,
        ..PLAIN
    },
    PLAIN,
    Case {
        number: 4,
        dims: 2,
        degree: 30,
        digest: 0xf1e1_2aef_6b2f_6068,
        refreshed: 8,
        ..PLAIN
    },
    Case {
        rows: 4097,
        digest: 0x8748_f7aa_f6cb_40cf,
        ..PLAIN
    },
    Case {
        rows: 4097,
        number: 2,
        dims: 2,
        rounds: 2,
        degree: 3,
        digest: 0x59d3_995b_ebf5_7882,
        ..PLAIN
    },
    Case {
        rows: 4097,
        number: 4,
        rounds: 2,
        degree: 30,
        digest: 0xdcfa_e24e_2c81_dcac,
        refreshed: 13,
        ..PLAIN
    },
    Case {
        rows: 9000,
        digest: 0x82e1_056f_378a_188d,
        ..PLAIN
    },
    Case {
        rows: 9000,
        number: 2,
        dims: 2,
        rounds: 2,
        degree: 3,
        digest: 0x0f8a_573d_fa9c_e63d,
        ..PLAIN
    },
];

impl Case {
    pub fn chunks(self) -> usize {
        input::chunk_count(self.rows)
    }

    // k, document 01's width of a block.
    pub fn wide(self) -> usize {
        self.dims.saturating_add(SpectralParams::OVERSAMPLING)
    }

    // How many numbers the seed has.
    pub fn seed(self) -> usize {
        self.rows.saturating_mul(self.dims)
    }

    // How many numbers of the Ritz record so many rounds write: each its bound and k Ritz values.
    pub fn record_of(self, rounds: usize) -> usize {
        rounds.saturating_mul(self.wide().saturating_add(1))
    }

    // As many numbers as the record needs.
    pub fn record(self) -> usize {
        self.record_of(self.rounds)
    }

    pub fn passes(self) -> usize {
        self.rounds.saturating_mul(self.degree.saturating_add(1))
    }

    // Accepted calls = stages x (C + 1), where stages = 9 + rounds x (degree + 2 + 7k) + 7 x refreshed.
    pub fn calls(self, refreshed: usize) -> usize {
        let columns = self.wide().saturating_mul(7);
        let round = self.degree.saturating_add(2).saturating_add(columns);
        let rounds = self.rounds.saturating_mul(round);
        let again = refreshed.saturating_mul(7);
        let stages = rounds.saturating_add(again).saturating_add(9);
        stages.saturating_mul(self.chunks().saturating_add(1))
    }
}

impl fmt::Display for Case {
    fn fmt<W: fmt::Write>(&self, f: &mut fmt::Formatter<W>) -> fmt::Result {
        if self.rows == 1 {
            return f.write_str("one row, no entries");
        }
        write!(f, "big {} {} ", self.rows, self.number)?;
        write!(f, "{} {} {}", self.dims, self.rounds, self.degree)
    }
}
