// What the text program prints: a refusal, or the counts and the seed.
//
// A function here writes from a place on, where it is told that there is room, and answers the place behind what it wrote. `deliver` and
// `write_answer` ask for nothing: they answer the length that they wrote from the first byte on, or a refusal. They write by hand and not
// by `Display`: the room is lent, and each byte of it stands in a contract.
#![tactic(auto)]

ghost use Rattle.std.specs.Prelude.{◌≡◌, ◌++◌, ◌*◌, ◌+◌, ◌≤◌, length, get_or};
ghost use Rattle.std.specs.Float.{binary64, nan};
ghost use Rattle.std.specs.Float.Ieee.{to_bits};
ghost use Rattle.digits.specs.Placed.{put};
ghost use Rattle.state.specs.Said.{counts_in};
ghost use Rattle.printing.specs.Printed.{labelled, refusal_text, head_text, row_text, rows_text, seed_text, room};

use state::Counts;

mod answer; // the whole answer, by its verdict
mod items; // numbers by commas
mod room; // into text that a host lends

pub use answer::write_answer;
pub use items::{Item, put_numbers};
pub use room::deliver;

// The bits of a number, a NaN always with the same ones.
#[tactic(auto, using(crate::proofs::Texts::nan_pattern))]
pub fn bits_of(x: f64) -> u64
    ensures { result ≡ to_bits binary64 x }
{
    std::num::f64_to_bits_with_nan(x)
}

// The bytes of a text.
pub fn put_text(text: &[u8], out: &mut [u8], at: usize) -> usize
    requires { at + length text.now ≤ length out.old }
    ensures { (result ≡ at + length text.now) × (out.new ≡ put text.now at out.old) }
{
    // By a loop and not `copy_from_slice`, which calls memmove: an archive for C would need that from outside.
    for i in 0..text.len() {
        out[at + i] = text[i];
    }
    at + text.len()
}

// A name, the decimal of x, a newline.
fn put_labelled(name: &[u8], x: u64, out: &mut [u8], at: usize) -> usize
    requires { at + length name.now + 21 ≤ length out.old }
    ensures { (result ≡ at + length (labelled name.now x))
        × (out.new ≡ put (labelled name.now x) at out.old) }
{
    let named = put_text(name, out, at);
    let next = digits::write_decimal(x, out, named).unwrap();
    put_text(b"\n", out, next)
}

// Two names, each with its number.
fn put_pair(first: &[u8], x: u64, second: &[u8], y: u64, out: &mut [u8], at: usize) -> usize
    requires { at + length first.now + length second.now + 42 ≤ length out.old }
    ensures { (result ≡ at + length (labelled first.now x ++ labelled second.now y))
        × (out.new ≡ put (labelled first.now x ++ labelled second.now y) at out.old) }
{
    let next = put_labelled(first, x, out, at);
    put_labelled(second, y, out, next)
}

// The line of row i.
fn put_row(i: usize, d: usize, seed: &[f64], out: &mut [u8], at: usize) -> usize
    requires { (i * d + d ≤ length seed.now) × (at + 17 * d + 5 ≤ length out.old) }
    ensures { (result ≡ at + length (row_text (λ c. get_or seed.now (i * d + c) nan) d))
        × (out.new ≡ put (row_text (λ c. get_or seed.now (i * d + c) nan) d) at out.old) }
{
    let named = put_text(b"row=", out, at);
    let from = i * d;
    let next = put_numbers(&seed[from..from + d], out, named);
    put_text(b"\n", out, next)
}

// The lines of the first n rows, each of at most 124 bytes.
fn put_rows(n: usize, d: usize, seed: &[f64], out: &mut [u8], at: usize) -> usize
    requires { (d ≤ 7) × (n * d ≤ length seed.now) × (at + 124 * n ≤ length out.old) }
    ensures { (result ≡ at + length (rows_text (λ i c. get_or seed.now (i * d + c) nan) d n))
        × (out.new ≡ put (rows_text (λ i c. get_or seed.now (i * d + c) nan) d n) at out.old) }
{
    let mut next = at;
    for i in 0..n {
        next = put_row(i, d, seed, out, next);
    }
    next
}

// The answer 0, the rows and the four counts, from the first byte on.
fn put_head(n: usize, counts: Counts, out: &mut [u8]) -> usize
    requires { 168 ≤ length out.old }
    ensures { (result ≡ length (head_text n (counts_in counts))) × (result ≤ 168)
        × (out.new ≡ put (head_text n (counts_in counts)) 0 out.old) }
{
    let a = put_pair(b"answer=", 0, b"n=", n as u64, out, 0);
    let b = put_pair(
        b"passes=",
        counts.passes as u64,
        b"refreshed=",
        counts.refreshed as u64,
        out,
        a,
    );
    put_pair(
        b"zeroed=",
        counts.zeroed as u64,
        b"isolated=",
        counts.isolated as u64,
        out,
        b,
    )
}

// The refusal from the first byte on; the place behind it.
fn print_refusal(number: u64, place: u64, out: &mut [u8]) -> usize
    requires { room ≤ length out.old }
    ensures { (result ≡ length (refusal_text number place)) × (result ≤ room)
        × (out.new ≡ put (refusal_text number place) 0 out.old) }
{
    put_pair(b"answer=", number, b"at=", place, out, 0)
}

// The seed of n rows with its counts, from the first byte on; the place behind it. Row i has its d numbers from i x d on.
fn print_seed(n: usize, d: usize, counts: Counts, seed: &[f64], out: &mut [u8]) -> usize
    requires n_bound { (n ≤ 64) × (d ≤ 7) × (n * d ≤ length seed.now) }
    requires room_in_bounds { room ≤ length out.old }
    ensures { (result ≡ length (seed_text n d (counts_in counts) (λ i c. get_or seed.now (i * d + c) nan))) × (result ≤ room)
        × (out.new ≡ put (seed_text n d (counts_in counts) (λ i c. get_or seed.now (i * d + c) nan)) 0 out.old) }
{
    let head = put_head(n, counts, out);
    put_rows(n, d, seed, out, head)
}
