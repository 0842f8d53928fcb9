// Digests: the oracle's of a seed, and one of a state and of lists, by which runs in different orders are compared.
use crate::lists;
use state::State;

pub const EMPTY: u64 = 0xcbf2_9ce4_8422_2325;

const PRIME: u64 = 0x100_0000_01b3;

// What a digest takes in.
pub trait Bits: Copy {
    fn bits(self) -> u64;
}

// A NaN always has the same bits.
impl Bits for f64 {
    fn bits(self) -> u64 {
        if self.is_nan() {
            return 0x7ff8_0000_0000_0000;
        }
        self.to_bits()
    }
}

impl Bits for usize {
    fn bits(self) -> u64 {
        self as u64
    }
}

impl Bits for u32 {
    fn bits(self) -> u64 {
        u64::from(self)
    }
}

impl Bits for u8 {
    fn bits(self) -> u64 {
        u64::from(self)
    }
}

// ---- the oracle's digest: FNV-1a, byte after byte, the lowest of a number first

fn with_byte(digest: u64, byte: u8) -> u64 {
    (digest ^ u64::from(byte)).wrapping_mul(PRIME)
}

fn with_bytes(digest: u64, bits: u64) -> u64 {
    bits.to_le_bytes()
        .iter()
        .fold(digest, |d, byte| with_byte(d, *byte))
}

// A seed stands at the front of its list, and so do the numbers of a record's finished rounds.
pub fn of_front(list: &[f64], count: usize) -> u64 {
    lists::front(list, count)
        .iter()
        .fold(EMPTY, |d, x| with_bytes(d, x.bits()))
}

// ---- the digest of states and lists: the same, a whole number at a time

pub fn with_number(digest: u64, bits: u64) -> u64 {
    let d = (digest ^ bits).wrapping_mul(PRIME);
    d ^ (d >> 29)
}

pub fn with_all<T: Bits>(digest: u64, list: &[T]) -> u64 {
    list.iter().fold(digest, |d, x| with_number(d, x.bits()))
}

pub fn of_state(s: State) -> u64 {
    let a = s.asked;
    let p = s.progress;
    let t = s.counts;
    let d = with_all(EMPTY, &[a.dims, a.rows, a.entries, a.rounds, a.degree]);
    let d = with_all(d, &[a.seed_std]);
    let d = with_all(d, &[p.stage, p.round, p.pass, p.column, p.attempt]);
    let d = with_all(d, &[p.current, p.previous]);
    let d = with_all(d, &[p.bound, p.alpha, p.before, p.norm]);
    let d = with_all(d, &[t.passes, t.refreshed, t.zeroed, t.isolated]);
    let d = with_all(d, &s.totals);
    let d = with_all(d, &s.matrix);
    let d = with_all(d, &s.vectors);
    with_all(d, &s.order)
}
