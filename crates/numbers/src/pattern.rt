// The root on bit patterns of values that are finite and above zero.
ghost use Rattle.std.specs.Prelude.{◌≡◌, ◌*◌, ◌^◌, ◌<◌};
ghost use Rattle.numbers.specs.Steps.{Normal, Split, Radicand, Patterned};

use crate::whole::{digits, nearest};

// A finite value above zero: sig * 2^exp squares of the smallest f64, which are 2^-2148.
#[derive(Clone, Copy)]
pub struct Scaled {
    pub sig: u64,
    pub exp: u64,
}

// A subnormal's significand, shifted up by its leading zeros until it has 53 digits.
fn shifted_up(t: u64) -> Scaled
    requires { (0 < t) × (t < 2 ^ 52) }
    ensures normal { Normal result.sig result.exp }
    ensures exp_value { result.sig * 2 ^ result.exp ≡ t * 2 ^ 1074 }
{
    let zeros = t.leading_zeros();
    let shift = zeros - 11;
    let wide = shift as u64;
    Scaled {
        sig: t << shift,
        exp: 1074 - wide,
    }
}

// The significand and the exponent of a pattern above 0 and below infinity's.
fn parts(bits: u64) -> Scaled
    requires { (0 < bits) × (bits < 0x7ff0_0000_0000_0000) }
    ensures { Split bits result.sig result.exp }
{
    let field = bits / 0x10_0000_0000_0000;
    let t = bits % 0x10_0000_0000_0000;
    if field == 0 {
        shifted_up(t)
    } else {
        Scaled {
            sig: t + 0x10_0000_0000_0000,
            exp: field + 1073,
        }
    }
}

// With an even power of two taken out, sig * 2^exp is a * 2^52, whose root has 53 digits.
fn radicand(sig: u64, exp: u64) -> u64
    requires { Normal sig exp }
    ensures { Radicand sig exp result }
{
    if exp % 2 == 0 { sig } else { sig * 2 }
}

// The pattern of the root of a pattern's value.
pub fn root_bits(bits: u64) -> u64
    requires { (0 < bits) × (bits < 0x7ff0_0000_0000_0000) }
    ensures { Patterned bits result }
{
    let Scaled { sig, exp } = parts(bits);
    let a = radicand(sig, exp);
    let d = digits(a);
    let n = nearest(d.root, d.rest);
    (exp / 2 - 26) * 0x10_0000_0000_0000 + n
}
