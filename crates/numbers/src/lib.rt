// The numbers of the seed. Each public function equals its definition on every input.
#![tactic(auto)]

mod pattern; // the root on bit patterns
mod rows; // which rows of a block are a chunk's
mod whole; // the root of whole numbers

ghost use Rattle.std.specs.Prelude.{◌≡◌};
ghost use Rattle.std.specs.Float.{binary64};
ghost use Rattle.definition.specs.Arith.{ieee64};
ghost use Rattle.definition.specs.Root.{root_of};
ghost use Rattle.definition.specs.SplitmixUnit.{wrap_mul, splitmix_unit};
ghost use Rattle.definition.specs.ChebyshevRayleighRitz.{next_bound, first_alpha, next_alpha, first_multipliers, later_multipliers, plain_multipliers};
ghost use Rattle.definition.specs.OrthonormalizeBlock.{ending};
ghost use Rattle.definition.specs.SpectralEmbedding.{above_floor, inverse_of, v0_of, scale_of};
ghost use Rattle.numbers.specs.Answers.{multipliers_of, ending_of, raised, lowered};

pub use rows::Rows;

// The square root of x, rounded to nearest, digit by digit: document 01 writes it out, and the library's own is the machine's. Of -0 it is -0, and of anything else below zero and of
// a NaN it is NaN.
pub fn root(x: f64) -> f64
    ensures { result ≡ root_of binary64 x }
{
    if x.is_nan() {
        return x;
    }
    let bits = x.to_bits();
    if bits == 0 || bits == 0x7ff0_0000_0000_0000 || bits == 0x8000_0000_0000_0000 {
        return x;
    }
    if bits > 0x8000_0000_0000_0000 {
        return f64::NAN;
    }
    f64::from_bits(pattern::root_bits(bits))
}

// ---- the start hash

// a * b, modulo 2^64.
pub fn wrapping_mul(a: u64, b: u64) -> u64
    ensures { result ≡ wrap_mul a b }
{
    a.wrapping_mul(b)
}

// The number of the start block at an index: splitmix64, and of its upper 53 bits w / 2^53 - 0.5.
pub fn splitmix_unit(index: u64) -> f64
    ensures { result ≡ splitmix_unit index }
{
    let z0 = index.wrapping_add(0x9e37_79b9_7f4a_7c15);
    let z1 = wrapping_mul(z0 ^ (z0 >> 30), 0xbf58_476d_1ce4_e5b9);
    let z2 = wrapping_mul(z1 ^ (z1 >> 27), 0x94d0_49bb_1331_11eb);
    let z3 = z2 ^ (z2 >> 31);
    let w = z3 >> 11;
    w as f64 / 9007199254740992.0 - 0.5
}

// ---- the degrees' numbers

// Whether a row with that root of its degree is no isolated one. A NaN is never greater.
pub fn above_floor(root: f64) -> bool
    ensures { result ≡ above_floor ieee64 root }
{
    1e-12 < root
}

// The inverse weight of a row with that root; isolated rows get a vanishing one.
pub fn inverse_of(root: f64) -> f64
    ensures { result ≡ inverse_of ieee64 root }
{
    if above_floor(root) { 1.0 / root } else { 1e-12 }
}

// The number of v0 for a row with that root of its degree.
pub fn v0_of(norm: f64, root: f64) -> f64
    ensures { result ≡ v0_of ieee64 norm root }
{
    if 0.0 < norm { root / norm } else { 0.0 }
}

// ---- the filter's numbers

// x, raised to a least value. A NaN becomes that value. Not f64's max, whose contract leaves open
// which of two that compare equal it gives.
fn raise(x: f64, least: f64) -> f64
    ensures { result ≡ raised ieee64 x least }
{
    if least < x { x } else { least }
}

// x, lowered to a largest value. A NaN becomes that value. Not f64's min, for the same reason.
fn lower(x: f64, most: f64) -> f64
    ensures { result ≡ lowered ieee64 x most }
{
    if x < most { x } else { most }
}

// The next bound: raised to 0.1 and lowered to 0.9995, and 0.1 for a NaN.
pub fn next_bound(ritz: f64) -> f64
    ensures { result ≡ next_bound ieee64 ritz }
{
    lower(raise(ritz, 0.1), 0.9995)
}

// The alpha that a new bound sets, 1 / t1.
pub fn first_alpha(bound: f64) -> f64
    ensures { result ≡ first_alpha ieee64 bound }
{
    let t1 = (2.0 - bound) / bound;
    1.0 / t1
}

// The alpha that follows `alpha`.
pub fn next_alpha(bound: f64, alpha: f64) -> f64
    ensures { result ≡ next_alpha ieee64 bound alpha }
{
    let t1 = (2.0 - bound) / bound;
    1.0 / (2.0 * t1 - alpha)
}

// What a pass multiplies its three numbers of a row by.
#[derive(Clone, Copy, Debug, PartialEq)]
pub struct Multipliers {
    pub of_mv: f64,
    pub of_v: f64,
    pub of_prev: f64,
}

// Of a round's first pass.
pub fn first_multipliers(bound: f64, alpha: f64) -> Multipliers
    ensures { multipliers_of result ≡ first_multipliers ieee64 bound alpha }
{
    Multipliers {
        of_mv: 2.0 * alpha / bound,
        of_v: -alpha,
        of_prev: 0.0,
    }
}

// Of a later pass, whose alpha `following` follows `alpha`.
pub fn later_multipliers(bound: f64, alpha: f64, following: f64) -> Multipliers
    ensures { multipliers_of result ≡ later_multipliers ieee64 bound alpha following }
{
    Multipliers {
        of_mv: 2.0 * 2.0 * following / bound,
        of_v: -2.0 * following,
        of_prev: -following * alpha,
    }
}

// Of the plain pass.
pub fn plain_multipliers() -> Multipliers
    ensures { multipliers_of result ≡ plain_multipliers ieee64 }
{
    Multipliers {
        of_mv: 1.0,
        of_v: 0.0,
        of_prev: 0.0,
    }
}

// ---- the collapse test

// How an attempt at a column ends: kept with its norm, refreshed, or zeroed.
#[derive(Clone, Copy, Debug, PartialEq)]
pub enum Ending {
    Kept(f64),
    Refreshed,
    Zeroed,
}

// Whether a column kept enough of its norm; one that was refreshed already isn't refreshed again.
// The limit is 2^-26. A NaN is never greater.
pub fn collapse_test(before: f64, norm: f64, already: bool) -> Ending
    ensures { ending_of result ≡ ending ieee64 before norm already }
{
    if before * 1.4901161193847656e-8 < norm {
        Ending::Kept(norm)
    } else if already {
        Ending::Zeroed
    } else {
        Ending::Refreshed
    }
}

// ---- the scale of the seed

// What a column of that standard deviation is multiplied by; 1 for one that hardly varies.
pub fn scale_of(target: f64, std: f64) -> f64
    ensures { result ≡ scale_of ieee64 target std }
{
    if 1e-30 < std { target / std } else { 1.0 }
}
