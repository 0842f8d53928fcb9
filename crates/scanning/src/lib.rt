// The passes over a Matrix Market text that read it from front to end: up to the size line, and behind it.
#![tactic(auto)]

ghost use Rattle.std.specs.Prelude.{◌≡◌, ◌*◌, ◌≤◌, leb};
ghost use Rattle.market.specs.Market.{inside, right_size};
ghost use Rattle.scanning.specs.Said.{ReadsHead, Place, Scans};
ghost use Rattle.scanning.specs.Inner.{FindsSize, is_before, Few, WithEntry, Stopped};

use lines::Kind;

// Rows, entries, and the place and the number of the line behind the size line.
#[derive(Drop)]
pub struct HeadRead {
    pub n: u64,
    pub m: u64,
    pub at: usize,
    pub line: u64,
}

// Whether all is right but for repeats, the line at fault or the one behind the last, the entries before it and those of them off the
// diagonal, and whether they stand in strictly rising order, by row and column or by column and row. A flag and no Result: of a text that is
// wrong all of it is told too (`Scans`), and the line serves either way, as the one up to which repeats are looked for.
#[derive(Drop)]
pub struct Scanned {
    pub is_right: bool,
    pub line: u64,
    pub entries: usize,
    pub doubles: usize,
    pub rising: bool,
}

// Whether entries is at most p x q; q is at least 1. No product is made.
fn fits(entries: u64, p: u64, q: u64) -> bool
    requires { 1 ≤ q }
    ensures { result ≡ leb entries (p * q) }
{
    let whole = entries / q;
    if whole < p {
        return true;
    }
    whole == p && entries % q == 0
}

// As many rows as columns, and no more entries than the lower triangle holds: n (n + 1) / 2 as a product of two whole numbers, by which
// the entries are divided, so that nothing overflows.
fn right_size(rows: u64, columns: u64, entries: u64) -> bool
    ensures { result ≡ right_size rows columns entries }
{
    if rows != columns {
        return false;
    }
    let half = rows / 2;
    if rows % 2 == 0 {
        return fits(entries, half, rows + 1);
    }
    fits(entries, rows, half + 1)
}

// From line 2, which begins at `from`, up to the size line; or the line at fault.
fn size_from(text: &[u8], from: usize) -> Result<HeadRead, u64>
    requires { Place text.now from 2 }
    ensures { FindsSize text.now from result }
{
    let mut at = from;
    let mut line = 2;
    while at < text.len() {
        let read = lines::read_line(text, at);
        match read.kind {
            Kind::Blank | Kind::Comment => {
                at = read.next;
                line += 1;
            }
            Kind::Size(r, c, m) => {
                if !right_size(r, c, m) {
                    return Err(line);
                }
                return Ok(HeadRead {
                    n: r,
                    m,
                    at: read.next,
                    line: line + 1,
                });
            }
            Kind::Entry(_, _) | Kind::Other => return Err(line),
        }
    }
    Err(line)
}

// Up to the size line; or the line at fault.
pub fn read_head(text: &[u8]) -> Result<HeadRead, u64>
    ensures { ReadsHead text.now result }
{
    let banner = lines::read_banner(text);
    if banner.is_right {
        return size_from(text, banner.next);
    }
    Err(1)
}

// The entries so far: how many, how many of them off the diagonal, the last one (0 and 0 before the first, which is greater, as rows and
// columns count from 1), and whether they rise by row and column, and by column and row.
#[derive(Drop)]
struct Passed {
    entries: usize,
    doubles: usize,
    row: u64,
    column: u64,
    by_rows: bool,
    by_columns: bool,
}

// Whether the pair (a, b) comes before (c, d).
fn is_before(a: u64, b: u64, c: u64, d: u64) -> bool
    ensures { result ≡ is_before a b c d }
{
    (a, b) < (c, d)
}

// Whether one more entry of the m is to come, and this one is in the lower triangle of n rows.
#[tactic(auto, using(std::proofs::lemmas::Bool::Decides::nat_tests), unfolding(market::specs::Market::inside))]
fn is_inside(n: u64, m: u64, entries: usize, r: u64, c: u64) -> bool
    ensures { result ≡ inside n m entries r c }
{
    (entries as u64) < m && 1 <= c && c <= r && r <= n
}

// The entries with one more.
fn with_entry(passed: Passed, r: u64, c: u64) -> Passed
    requires { Few passed }
    ensures { WithEntry passed r c result }
{
    let a = passed.row;
    let b = passed.column;
    let doubles = if r != c {
        passed.doubles + 1
    } else {
        passed.doubles
    };
    Passed {
        entries: passed.entries + 1,
        doubles,
        row: r,
        column: c,
        by_rows: passed.by_rows & is_before(a, b, r, c),
        by_columns: passed.by_columns & is_before(b, a, c, r),
    }
}

// What is told at a stop.
fn stopped(passed: Passed, is_right: bool, line: u64) -> Scanned
    ensures { Stopped passed is_right line result }
{
    Scanned {
        is_right,
        line,
        entries: passed.entries,
        doubles: passed.doubles,
        rising: passed.by_rows | passed.by_columns,
    }
}

// Behind the size line: up to the text's end, or to the first line that is at fault by itself.
pub fn scan(text: &[u8], from: usize, first: u64, n: u64, m: u64) -> Scanned
    requires { Place text.now from first }
    ensures { Scans text.now from first n m result }
{
    let mut at = from;
    let mut line = first;
    let mut passed = Passed {
        entries: 0,
        doubles: 0,
        row: 0,
        column: 0,
        by_rows: true,
        by_columns: true,
    };
    while at < text.len() {
        let read = lines::read_line(text, at);
        match read.kind {
            Kind::Blank => {
                at = read.next;
                line += 1;
            }
            Kind::Entry(r, c) => {
                let entries = passed.entries;
                if !is_inside(n, m, entries, r, c) {
                    return stopped(passed, false, line);
                }
                passed = with_entry(passed, r, c);
                at = read.next;
                line += 1;
            }
            Kind::Comment | Kind::Size(_, _, _) | Kind::Other => {
                return stopped(passed, false, line);
            }
        }
    }
    let is_right = passed.entries as u64 == m;
    stopped(passed, is_right, line)
}
