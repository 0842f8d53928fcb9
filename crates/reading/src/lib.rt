// The reader of run files: which bytes are which run file, and where they are not, the first line at fault.
#![tactic(auto)]

ghost use Rattle.std.specs.Prelude.{◌≡◌, List, [], ℕ, ◌+◌, ◌≤◌, length, get_or};
ghost use Rattle.std.specs.Float.Ieee.{of_bits};
ghost use Rattle.std.specs.Float.{binary64};
ghost use Rattle.reading.specs.Grammar.{bytes_most, starts_most, largest32, largest64};
ghost use Rattle.reading.specs.ReadLine.{number_at, numbers_from, stands_at, line_from};
ghost use Rattle.reading.specs.ReadRun.{read_run, read_lists, record_of, floats_of, padded, fault};
ghost use Rattle.reading.specs.Parts.{line_of, Reads, one_of, ReadsHead, read_entries, Inside};

use digits::Number;

const BYTES_MOST: usize = 32768;

// The text program's sizes. The Ritz record of so many rounds fits its memory.
pub const ROUNDS_MOST: u64 = 400;

pub const STARTS_MOST: usize = 65;

pub const ENTRIES_MOST: usize = 1024;

// Below 2^64, and below 2^32.
const LARGEST64: u64 = 0xffff_ffff_ffff_ffff;

const LARGEST32: u64 = 0xffff_ffff;

// The numbers of a run file; zeros behind those of each list. Where the bytes are none, only `line` says something: the first line that is
// wrong, missing, extra or over a size, from 1, or 0 for too many bytes.
// Flag, line and counts stand beside arrays since it is C's record: `reading_c::reading_read_run` answers it, in fixed memory.
#[repr(C)]
#[derive(Clone, Copy)]
pub struct RunFile {
    pub is_right: bool,
    pub line: u64,
    pub d: u64,
    pub rounds: u64,
    pub degree: u64,
    pub seed_std: f64,
    pub start_count: usize,
    pub column_count: usize,
    pub value_count: usize,
    pub starts: [u64; 65],
    pub columns: [u32; 1024],
    pub values: [f64; 1024],
}

// What the numbers of a line are: decimals up to a largest, or the bits of floats in hex.
#[derive(Clone, Copy)]
enum Kind {
    UpTo(u64),
    Bits,
}

// How many numbers a line has, and the place behind it.
#[derive(Clone, Copy)]
struct Counted {
    count: usize,
    next: usize,
}

// The numbers of lines 1 to 4, a float as its bits, and the place behind them.
#[derive(Clone, Copy)]
struct Head {
    d: u64,
    rounds: u64,
    degree: u64,
    seed: u64,
    next: usize,
}

// ---- a line

// The byte at i, and 0 behind the end.
fn byte_at(bytes: &[u8], i: usize) -> u8
    ensures { result ≡ get_or bytes.now i 0 }
{
    if i < bytes.len() { bytes[i] } else { 0 }
}

// Whether the name stands at `at`.
fn stands_at(name: &[u8], bytes: &[u8], at: usize) -> bool
    requires { at + length name.now ≤ largest64 }
    ensures { result ≡ stands_at name.now bytes.now at }
{
    for i in 0..name.len() {
        if byte_at(bytes, at + i) != name[i] {
            return false;
        }
    }
    true
}

impl Kind {
    // The number that stands at a place.
    fn number_at(self, bytes: &[u8], at: usize) -> Option<Number>
        ensures { result ≡ number_at (line_of [] self 0 0) bytes.now at }
    {
        match self {
            Kind::UpTo(largest) => digits::read_decimal(bytes, at, largest),
            Kind::Bits => digits::read_hex(bytes, at),
        }
    }
}

// One number or more, by commas, up to a newline; as many as `out` holds at most.
fn read_numbers(kind: Kind, bytes: &[u8], from: usize, out: &mut [u64]) -> Option<Counted>
    ensures { Reads (numbers_from (line_of [] kind 0 0) bytes.now from (length out.old)) out.old result out.new }
{
    let mut at = from;
    for i in 0..out.len() {
        let number = kind.number_at(bytes, at)?;
        out[i] = number.value;
        let b = byte_at(bytes, number.next);
        if b == b'\n' {
            return Some(Counted {
                count: i + 1,
                next: number.next + 1,
            });
        }
        if b != b',' {
            return None;
        }
        at = number.next + 1;
    }
    None
}

// The line that stands at `from`, with `fewest` numbers at least and as many as `out` holds at most.
fn read_line(
    name: &[u8],
    kind: Kind,
    fewest: usize,
    bytes: &[u8],
    from: usize,
    out: &mut [u64],
) -> Option<Counted>
    requires { Inside bytes.now from × (length name.now ≤ 16) }
    ensures { Reads (line_from (line_of name.now kind fewest (length out.old)) bytes.now from) out.old result out.new }
{
    if !stands_at(name, bytes, from) {
        return None;
    }
    let at = from + name.len();
    if byte_at(bytes, at) != b'\n' {
        return read_numbers(kind, bytes, at, out);
    }
    if fewest != 0 {
        return None;
    }
    Some(Counted {
        count: 0,
        next: at + 1,
    })
}

// The line that has one number.
fn read_one(name: &[u8], kind: Kind, bytes: &[u8], from: usize) -> Option<Number>
    requires { Inside bytes.now from × (length name.now ≤ 16) }
    ensures { result ≡ one_of (line_from (line_of name.now kind 1 1) bytes.now from) }
{
    let mut numbers = [0; 1];
    let line = read_line(name, kind, 1, bytes, from, &mut numbers)?;
    Some(Number {
        value: numbers[0],
        next: line.next,
    })
}

// ---- a run file. What is no line of it is answered by its line, from 1.

// Lines 1 to 4.
fn read_head(bytes: &[u8]) -> Result<Head, u64>
    requires { length bytes.now ≤ bytes_most }
    ensures { ReadsHead bytes.now result }
{
    let d = read_one(b"d=", Kind::UpTo(LARGEST64), bytes, 0).ok_or(1u64)?;
    let rounds = read_one(b"rounds=", Kind::UpTo(ROUNDS_MOST), bytes, d.next).ok_or(2u64)?;
    let degree = read_one(b"degree=", Kind::UpTo(LARGEST64), bytes, rounds.next).ok_or(3u64)?;
    let seed = read_one(b"seed_std=", Kind::Bits, bytes, degree.next).ok_or(4u64)?;
    Ok(Head {
        d: d.value,
        rounds: rounds.value,
        degree: degree.value,
        seed: seed.value,
        next: seed.next,
    })
}

// The float of a pattern, which may be a NaN's: the logic has one NaN.
pub fn value_of(bits: u64) -> f64
    ensures { result ≡ of_bits binary64 bits }
{
    std::num::f64_from_bits_with_nan(bits)
}

// A loop: with `numbers.map(|n| n as u32)` the check does not prove that each cast fits (tried: `map-requires` stays open).
fn columns_of(numbers: [u64; 1024]) -> [u32; 1024]
    requires { (i : ℕ) → get_or numbers i 0 ≤ largest32 }
    ensures { result ≡ numbers }
{
    let mut columns = [0u32; 1024];
    for i in 0..1024 {
        columns[i] = numbers[i] as u32;
    }
    columns
}

// A loop too: `bits.map(value_of)` keeps copies of the list. `reading_read_run` took 91,191 bytes of stack with it and takes 54,263, measured.
fn values_of(bits: [u64; 1024]) -> [f64; 1024]
    ensures { result ≡ floats_of bits }
{
    let mut values = [0.0; 1024];
    for i in 0..1024 {
        values[i] = value_of(bits[i]);
    }
    values
}

fn faulty(line: u64) -> RunFile
    ensures { result ≡ record_of (fault line) }
{
    RunFile {
        is_right: false,
        line,
        d: 0,
        rounds: 0,
        degree: 0,
        seed_std: 0.0,
        start_count: 0,
        column_count: 0,
        value_count: 0,
        starts: [0; 65],
        columns: [0; 1024],
        values: [0.0; 1024],
    }
}

// Lines 6 and 7, and nothing behind them. The starts are read: `count` of them, and zeros.
// This and `read_lists` answer the file itself: a `Result` of it is copied at each level. With it, and `map` above, a C program's call took
// 109,080 bytes of stack, and takes 51,192, measured; bindings/c/stack.c allows 56,000.
fn read_entries(bytes: &[u8], head: Head, count: usize, starts: [u64; 65], from: usize) -> RunFile
    requires { Inside bytes.now from }
    ensures { (vs : List ℕ) → count ≡ length vs → starts ≡ padded starts_most vs → result ≡ record_of (read_entries bytes.now head.d head.rounds head.degree head.seed vs from) }
{
    let mut columns = [0; 1024];
    let kind = Kind::UpTo(LARGEST32);
    let Some(line6) = read_line(b"columns=", kind, 0, bytes, from, &mut columns) else {
        return faulty(6);
    };
    let mut values = [0; 1024];
    let Some(line7) = read_line(b"values=", Kind::Bits, 0, bytes, line6.next, &mut values) else {
        return faulty(7);
    };
    if line7.next != bytes.len() {
        return faulty(8);
    }
    RunFile {
        is_right: true,
        line: 0,
        d: head.d,
        rounds: head.rounds,
        degree: head.degree,
        seed_std: value_of(head.seed),
        start_count: count,
        column_count: line6.count,
        value_count: line7.count,
        starts,
        columns: columns_of(columns),
        values: values_of(values),
    }
}

// Lines 5 to 7.
fn read_lists(bytes: &[u8], head: Head) -> RunFile
    requires { Inside bytes.now head.next }
    ensures { result ≡ record_of (read_lists bytes.now head.d head.rounds head.degree head.seed head.next) }
{
    let mut starts = [0; 65];
    let kind = Kind::UpTo(LARGEST64);
    let Some(line5) = read_line(b"starts=", kind, 0, bytes, head.next, &mut starts) else {
        return faulty(5);
    };
    read_entries(bytes, head, line5.count, starts, line5.next)
}

pub fn read_run(bytes: &[u8]) -> RunFile
    ensures { result ≡ record_of (read_run bytes.now) }
{
    if BYTES_MOST < bytes.len() {
        return faulty(0);
    }
    match read_head(bytes) {
        Ok(head) => read_lists(bytes, head),
        Err(line) => faulty(line),
    }
}
