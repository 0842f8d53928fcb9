// Runs stored matrices through `ritz::jacobi_eigen` and compares the answers with the stored ones bit for bit, a NaN with any NaN.
// Standard input, for each matrix: k, then the k * k numbers of the matrix, of the answer and of the vectors, each as 16 hex digits and
// a newline. Anything but a k from 9 to 15 ends it, and so does the end of the input. A number that is missing is 0.
#![tactic(auto)]

use std::fmt;
use std::io::{self, Read};
use std::num::{f64_from_bits_with_nan, f64_to_bits_with_nan};

const CASES_MOST: u64 = 4096;

// ---- numbers

// The value of a hex digit, and 0 of any other byte. (Kept: `char::to_digit` takes upper case too.)
fn digit(c: u8) -> u64 {
    match c {
        b'0'..=b'9' => (c - b'0') as u64,
        b'a'..=b'f' => (c - b'a') as u64 + 10,
        _ => 0,
    }
}

fn number_of(digits: &[u8]) -> u64 {
    digits.iter().fold(0, |bits, c| bits << 4 | digit(*c))
}

// The next number of the input, if it has one.
fn next_number(input: &mut impl Read) -> Option<u64> {
    let mut line = [0u8; 17];
    input.read_exact(&mut line).ok()?;
    Some(number_of(&line[..16]))
}

fn next_value(input: &mut impl Read) -> f64 {
    f64_from_bits_with_nan(next_number(input).unwrap_or(0))
}

// Whether x and y have the same bits, which all NaNs have.
fn is_same(x: f64, y: f64) -> bool {
    f64_to_bits_with_nan(x) == f64_to_bits_with_nan(y)
}

// ---- matrices

fn read_matrix(input: &mut impl Read, count: usize) -> [f64; 225] {
    let mut m = [0.0; 225];
    for x in m.iter_mut().take(count) {
        *x = next_value(input);
    }
    m
}

// Whether the next numbers of the input are those of m. All of them are read, behind one that differs too.
fn agrees(input: &mut impl Read, m: &[f64]) -> bool {
    let mut agrees = true;
    for x in m {
        agrees &= is_same(*x, next_value(input));
    }
    agrees
}

// Whether the next matrix has its stored answer; none where there is no next one.
fn next_case(input: &mut impl Read) -> Option<bool> {
    let k @ 9..=15 = next_number(input)? else {
        return None;
    };
    let k = k as usize;
    let count = k * k;
    let answer = ritz::jacobi_eigen(k, read_matrix(input, count));
    let matrix = agrees(input, &answer.matrix[..count]);
    let vectors = agrees(input, &answer.vectors[..count]);
    Some(matrix && vectors)
}

// ---- counting

// Matrices read, and those with their stored answers.
#[derive(Clone, Copy, Default)]
struct Tally {
    matrices: u64,
    same: u64,
}

impl Tally {
    fn note(&mut self, is_same: bool) {
        self.matrices = self.matrices.saturating_add(1);
        self.same = self.same.saturating_add(u64::from(is_same));
    }
}

impl fmt::Display for Tally {
    fn fmt<W: fmt::Write>(&self, f: &mut fmt::Formatter<W>) -> fmt::Result {
        write!(f, "matrices={} same={}", self.matrices, self.same)
    }
}

fn count_cases(input: &mut impl Read) -> Tally {
    let mut tally = Tally::default();
    for _ in 0..CASES_MOST {
        let Some(is_same) = next_case(input) else {
            break;
        };
        tally.note(is_same);
    }
    tally
}

fn main(rt: HostRuntime) -> io::Result<()> {
    let tally = count_cases(&mut rt.stdin());
    println!(rt; "{tally}")
}
