// Roots of whole numbers: the digits of the root and what its square leaves.
ghost use Rattle.std.specs.Prelude.{◌+◌, ◌*◌, ◌/◌, ◌^◌, ◌<◌, ◌≤◌};
ghost use Rattle.definition.specs.Root.{Nearest};
ghost use Rattle.numbers.specs.Steps.{Floored, Lengthens};

// A root without its fraction and what its square leaves.
#[derive(Clone, Copy, Debug, PartialEq)]
pub struct Whole {
    pub root: u64,
    pub rest: u64,
}

// The first 7 digits of the root of a, which has 54 bits: each turn brings two of them down. What is taken off is worked out and not
// jumped over, here and in `more_digits`: with a branch for each (tried) a root took 1.24 to 1.39 of the time, since half of them are guessed wrong.
fn first_digits(a: u64) -> Whole
    requires { a < 2 ^ 54 }
    ensures { Floored (a / 2 ^ 40) result.root result.rest }
{
    let mut bits = a;
    let mut q: u64 = 0;
    let mut r: u64 = 0;
    for i in 0u64..7 {
        let t = r * 4 + bits / 0x10_0000_0000_0000;
        let s = q * 4 + 1;
        bits = bits % 0x10_0000_0000_0000 * 4;
        let mut less: u64 = 0;
        let mut digit: u64 = 0;
        if s <= t {
            less = s;
            digit = 1;
        }
        r = t - less;
        q = q * 2 + digit;
    }
    Whole { root: q, rest: r }
}

// s is the root of x and r what its square leaves: the root of x * base^2 + low, by one division of
// the rest by twice the root. The quotient leaves its own square out, so it can be too large by one.
fn more_digits(s: u64, r: u64, base: u64, low: u64) -> Whole
    requires { Lengthens s r base low }
    ensures { Floored ((s * s + r) * (base * base) + low) result.root result.rest }
{
    let twice = s * 2;
    let n = r * base + low / base;
    let t = n / twice;
    let left = n % twice * base + low % base;
    let square = t * t;
    let q = s * base + t;
    let mut less: u64 = 0;
    let mut more: u64 = 0;
    if left < square {
        less = 1;
        more = q * 2 - 1;
    }
    let root = q - less;
    let rest = left + more - square;
    Whole { root, rest }
}

// The 53 digits of the root of a * 2^52: 7 of them, then 14, 27 and all.
pub fn digits(a: u64) -> Whole
    requires { (2 ^ 52 ≤ a) × (a < 2 ^ 54) }
    ensures { Floored (a * 2 ^ 52) result.root result.rest }
{
    let w7 = first_digits(a);
    let w14 = more_digits(w7.root, w7.rest, 0x80, a / 0x400_0000 % 0x4000);
    let w27 = more_digits(w14.root, w14.rest, 0x2000, a % 0x400_0000);
    more_digits(w27.root, w27.rest, 0x400_0000, 0)
}

// The whole number nearest to the root of q * q + r.
pub fn nearest(q: u64, r: u64) -> u64
    requires { (0 < q) × (q < 2 ^ 53) × (r ≤ 2 * q) }
    ensures { Nearest (q * q + r) result }
{
    if r > q { q + 1 } else { q }
}
