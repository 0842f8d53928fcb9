// Numbers to text and text to numbers, on bytes: decimals without leading zeros, and 64 bits as 16 lower-case hex digits.
//
// A reader answers the number and the place behind it; a writer answers the place behind what it wrote, or None where it does not fit.
#![tactic(auto)]

ghost use Rattle.std.specs.Prelude.{◌≡◌, cond, ◌+◌, ◌≤◌, ◌<◌, leb, length, Some, None};
ghost use Rattle.digits.specs.Digits.{decimal, hex_of, hex, is_digit, is_hex, hex_digit, hex_value};
ghost use Rattle.digits.specs.ReadDecimal.{digits_at, up_to, read_decimal};
ghost use Rattle.digits.specs.ReadHex.{read_hex};
ghost use Rattle.digits.specs.Placed.{put, Writes};

// A number that stands at a place, and the place behind it.
#[derive(Clone, Copy)]
pub struct Number {
    pub value: u64,
    pub next: usize,
}

// Whether b is one of `0` to `9`.
#[tactic(auto, using(std::proofs::lemmas::Bool::Decides::nat_tests), unfolding(crate::specs::Digits::is_digit))]
pub fn is_digit(b: u8) -> bool
    ensures { result ≡ is_digit b }
{
    b'0' <= b && b <= b'9'
}

// The digit that a lower-case hex byte stands for.
#[tactic(auto, using(std::proofs::lemmas::Bool::Decides::nat_tests), unfolding(crate::specs::Digits::is_hex, crate::specs::Digits::is_digit, crate::specs::Digits::hex_value))]
fn hex_value(b: u8) -> Option<u64>
    ensures { result ≡ cond (is_hex b) (Some (hex_value b)) None }
{
    match b {
        b'0'..=b'9' => Some((b - b'0') as u64),
        b'a'..=b'f' => Some((b - b'a') as u64 + 10),
        _ => None,
    }
}

// The byte of a hex digit.
fn hex_digit(d: u64) -> u8
    requires { d < 16 }
    ensures { result ≡ hex_digit d }
{
    if d < 10 {
        b'0' + d as u8
    } else {
        b'a' + (d - 10) as u8
    }
}

// The place behind the digits that stand at `from`.
fn digits_end(bytes: &[u8], from: usize) -> usize
    ensures { result ≡ from + length (digits_at bytes.now from) }
{
    for i in from..bytes.len() {
        if !is_digit(bytes[i]) {
            return i;
        }
    }
    bytes.len().max(from)
}

// The number of the digits from `from` up to `end`, if it is at most `most`. A prefix that is larger settles it: the number only grows.
fn number_up_to(bytes: &[u8], from: usize, end: usize, most: u64) -> Option<Number>
    requires { (end ≡ from + length (digits_at bytes.now from)) × (end ≤ length bytes.now) }
    ensures { result ≡ up_to most (digits_at bytes.now from) from }
{
    let mut value = 0;
    for i in from..end {
        let digit = (bytes[i] - b'0') as u64;
        if most < digit || (most - digit) / 10 < value {
            return None;
        }
        value = value * 10 + digit;
    }
    Some(Number { value, next: end })
}

// The longest run of digits at `from`, if it has no leading zero and its number is at most `most`.
#[tactic(auto, using(crate::proofs::Scans::case_empty, crate::proofs::Scans::case_leading, crate::proofs::Scans::case_lone, crate::proofs::Scans::case_number, crate::proofs::Scans::case_inside, crate::proofs::Scans::case_digit))]
pub fn read_decimal(bytes: &[u8], from: usize, most: u64) -> Option<Number>
    ensures { result ≡ read_decimal bytes.now from most }
{
    let end = digits_end(bytes, from);
    if end <= from {
        return None;
    }
    // A zero stands alone.
    if bytes[from] == b'0' && from + 1 < end {
        return None;
    }
    number_up_to(bytes, from, end, most)
}

// The 16 bytes at `from`, each a hex digit.
fn hex_bits(bytes: &[u8], from: usize) -> Option<Number>
    requires { from + 16 ≤ length bytes.now }
    ensures { result ≡ read_hex bytes.now from }
{
    let mut value = 0;
    for k in 0..16 {
        let digit = hex_value(bytes[from + k])?;
        value = value * 16 + digit;
    }
    Some(Number {
        value,
        next: from + 16,
    })
}

// Whether `count` of `len` bytes are there from `at` on.
fn has_room(count: usize, at: usize, len: usize) -> bool
    ensures { result ≡ leb (at + count) len }
{
    at <= len && count <= len - at
}

// The 16 bytes at `from`, if they are there and each is a lower-case hex digit.
pub fn read_hex(bytes: &[u8], from: usize) -> Option<Number>
    ensures { result ≡ read_hex bytes.now from }
{
    if !has_room(16, from, bytes.len()) {
        return None;
    }
    hex_bits(bytes, from)
}

// How many digits the decimal of x has. It divides until one is left.
pub fn decimal_length(x: u64) -> usize
    ensures { result ≡ length (decimal x) }
{
    let mut rest = x;
    let mut count = 1;
    while 10 <= rest {
        rest /= 10;
        count += 1;
    }
    count
}

// The decimal of x at `at`, where it fits; the place behind it. The digits before the last are those of x / 10.
fn put_decimal(x: u64, out: &mut [u8], at: usize) -> usize
    requires { at + length (decimal x) ≤ length out.old }
    ensures { (result ≡ at + length (decimal x)) × (out.new ≡ put (decimal x) at out.old) }
{
    if x < 10 {
        out[at] = b'0' + x as u8;
        return at + 1;
    }
    let last = put_decimal(x / 10, out, at);
    out[last] = b'0' + (x % 10) as u8;
    last + 1
}

// The decimal of x at `at`. Where it does not fit, `out` stays as it is.
pub fn write_decimal(x: u64, out: &mut [u8], at: usize) -> Option<usize>
    ensures { Writes (decimal x) at out.old result out.new }
{
    if !has_room(decimal_length(x), at, out.len()) {
        return None;
    }
    Some(put_decimal(x, out, at))
}

// The m lowest hex digits of x at `at`, where they fit. The digits before the last are those of x / 16.
fn put_hex(m: usize, x: u64, out: &mut [u8], at: usize)
    requires { at + m ≤ length out.old }
    ensures { out.new ≡ put (hex_of m x) at out.old }
{
    if m == 0 {
        return;
    }
    put_hex(m - 1, x / 16, out, at);
    let last = at + (m - 1);
    out[last] = hex_digit(x % 16);
}

// The 16 hex digits of x at `at`. Where they do not fit, `out` stays as it is.
pub fn write_hex(x: u64, out: &mut [u8], at: usize) -> Option<usize>
    ensures { Writes (hex x) at out.old result out.new }
{
    if !has_room(16, at, out.len()) {
        return None;
    }
    put_hex(16, x, out, at);
    Some(at + 16)
}
