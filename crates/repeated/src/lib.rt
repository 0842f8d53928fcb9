// Repeats among the entries of a Matrix Market text that stand in no rising order, looked for in bounded memory: block by block of the
// entries, each in one pass over what stands behind it.
#![tactic(auto)]

ghost use Rattle.std.specs.Prelude.{◌≡◌, false, ◌&&◌, List, [], ◌∷◌, ◌++◌, ℕ, ◌+◌, ◌≤◌, ◌<◌, eqb, length};
ghost use Rattle.lines.specs.Lines.{holds};
ghost use Rattle.lines.specs.Kinds.{kinds_at};
ghost use Rattle.market.specs.Market.{has};
ghost use Rattle.market.specs.Passes.{repeat_from};
ghost use Rattle.repeated.specs.Blocks.{hits, first_of, meet_from};
ghost use Rattle.repeated.specs.Tables.{places, folded, key_of, hash_of, stored, Chained, Keeps, Holds, Fills, Passed};

use lines::{Kind, Lines};
use std::marker::Model;

// The places of a block, and the entries: place 0 is nobody's.
const PLACES: usize = 32768;

const ENTRIES_MOST: usize = 32767;

// Where what is left begins, with the number of the line there, and the line to look up to.
#[derive(Drop)]
struct Rest {
    at: usize,
    line: u64,
    limit: u64,
}

// ---- the key of an entry

// A number below 2^32 as it is; of a larger one, which no file has that is not refused by 3, the upper half is mixed into the lower.
fn fold(x: u64) -> u64
    ensures { (result ≡ folded x) × (result < 0x1_0000_0000) }
{
    (x % 4294967296 + x / 4294967296 * 2654435769) % 4294967296
}

// Row and column in one number, so that a place has 8 bytes.
fn key_of(row: u64, column: u64) -> u64
    ensures { result ≡ key_of row column }
{
    fold(row) * 4294967296 + fold(column)
}

// A number below the number of places for each key. The factors spread rows and columns that are near each other.
fn hash(key: u64) -> usize
    ensures { (result ≡ hash_of key) × (result < places) }
{
    let x = key / 4294967296 * 1000003 + key % 4294967296;
    (x % 4294967296 * 2654435769 / 131072 % 32768) as usize
}

// ---- the keys of a block's entries

// The keys from place 1 on, in chains by their hashes: `heads` has the place of the last entry with a hash, `links` that of the one before an
// entry that has its hash; 0 is none. A contract sees the keys alone.
#[derive(Drop)]
struct Table {
    keys: [u64; PLACES],
    links: [u16; PLACES],
    heads: [u16; PLACES],
    count: usize,
}

impl Model for Table {
    ghost Value = { List ℕ };

    ghost view = { λ t. stored t.keys t.count };

    ghost invariant = { λ t. Chained t.count t.keys t.links t.heads };
}

impl Table {
    fn len(&self) -> usize
        ensures { result ≡ length self.now }
    {
        self.count
    }

    // No entry has any hash, and a chain ends at place 0.
    fn clear(&mut self)
        ensures { self.new ≡ [] }
    {
        self.links[0] = 0;
        self.heads.fill(0);
        self.count = 0;
    }

    // Whether this key may be stored: where it is not, no entry has it. Place 0 is looked at as others are, so that the ways part seldom. The loop
    // goes along a chain and counts nothing.
    fn look_up(&self, key: u64) -> bool
        ensures { result ≡ false → holds key self.now ≡ false }
    {
        let h = hash(key);
        let mut i = self.heads[h] as usize;
        while self.keys[i] != key {
            i = self.links[i] as usize;
            if i == 0 {
                return false;
            }
        }
        true
    }

    // Stores a key behind those that are.
    fn store(&mut self, key: u64)
        requires { length self.old + 1 < places }
        ensures { self.new ≡ self.old ++ key ∷ [] }
    {
        let h = hash(key);
        let place = self.count + 1;
        self.keys[place] = key;
        self.links[place] = self.heads[h];
        self.heads[h] = place as u16;
        self.count = place;
    }

    // Stores a line's entry, if it has one.
    fn keep(&mut self, kind: Kind)
        requires { length self.old + 1 < places }
        ensures { Keeps kind self.old self.new }
    {
        if let Kind::Entry(row, column) = kind {
            self.store(key_of(row, column));
        }
    }
}

// ---- lines

// Whether two entries are one.
fn is_pair(a: u64, b: u64, row: u64, column: u64) -> bool
    ensures { result ≡ (eqb a row && eqb b column) }
{
    (a, b) == (row, column)
}

// Whether an entry is one of the first `count` from `from` on, which are read again.
fn among_first(text: &[u8], from: usize, count: usize, row: u64, column: u64) -> bool
    requires { from ≤ length text.now }
    ensures { result ≡ has (first_of text.now from count) row column }
{
    let mut left = count;
    for kind in Lines(&text[from..]) {
        let Kind::Entry(r, c) = kind else {
            continue;
        };
        if left == 0 {
            return false;
        }
        if is_pair(r, c, row, column) {
            return true;
        }
        left -= 1;
    }
    false
}

// Whether a line's entry is one of the block's, which begins at `block`. Two entries may have one key: then the text decides.
fn among(kind: Kind, text: &[u8], block: usize, table: &Table) -> bool
    requires { (block ≤ length text.now) × Holds text.now block table.now }
    ensures { result ≡ hits (first_of text.now block (length table.now)) kind }
{
    let Kind::Entry(row, column) = kind else {
        return false;
    };
    if table.look_up(key_of(row, column)) {
        return among_first(text, block, table.len(), row, column);
    }
    false
}

// From line `first` on, which begins at `from`: a block of entries, of which none repeats; where one does, its line is the one to look up to.
fn fill(text: &[u8], from: usize, first: u64, limit: u64, table: &mut Table) -> Rest
    requires { (from < length text.now) × (first ≤ from) × (first < limit) × (table.old ≡ []) }
    ensures { Fills text.now from first limit result table.new }
{
    let mut at = from;
    let mut line = first;
    while table.len() < ENTRIES_MOST && at < text.len() && line < limit {
        let r = lines::read_line(text, at);
        at = r.next;
        if among(r.kind, text, from, table) {
            return Rest {
                at,
                line,
                limit: line,
            };
        }
        table.keep(r.kind);
        line += 1;
    }
    Rest { at, line, limit }
}

// From line `first` on, which begins at `from`, up to line `limit`: the first line whose entry is one of the block's; or `limit`.
fn meet(text: &[u8], block: usize, from: usize, first: u64, limit: u64, table: &Table) -> u64
    requires { (block ≤ length text.now) × (from ≤ length text.now) × (first ≤ from) × Holds text.now block table.now }
    ensures { result ≡ meet_from (first_of text.now block (length table.now)) first limit (kinds_at text.now from) }
{
    let mut at = from;
    let mut line = first;
    while at < text.len() {
        if limit <= line {
            return limit;
        }
        let r = lines::read_line(text, at);
        at = r.next;
        if among(r.kind, text, block, table) {
            return line;
        }
        line += 1;
    }
    limit
}

// ---- blocks

// A block of entries, and the first line behind it that repeats one of them.
fn pass(text: &[u8], from: usize, first: u64, limit: u64, table: &mut Table) -> Rest
    requires { (from < length text.now) × (first ≤ from) × (first < limit) }
    ensures { Passed text.now from first limit result }
{
    table.clear();
    let f = fill(text, from, first, limit, table);
    let end = meet(text, from, f.at, f.line, f.limit, table);
    Rest {
        at: f.at,
        line: f.line,
        limit: end,
    }
}

// From line `first` on, which begins at `from`, up to line `limit`, block after block: the first line whose entry stands before it too; or
// `limit`.
pub fn first_repeat(text: &[u8], from: usize, first: u64, limit: u64) -> u64
    requires { (from ≤ length text.now) × (first ≤ from) }
    ensures { result ≡ repeat_from [] first limit (kinds_at text.now from) }
{
    let mut table = Table {
        keys: [0; PLACES],
        links: [0; PLACES],
        heads: [0; PLACES],
        count: 0,
    };
    let mut at = from;
    let mut line = first;
    let mut end = limit;
    while at < text.len() {
        if end <= line {
            return end;
        }
        let r = pass(text, at, line, end, &mut table);
        at = r.at;
        line = r.line;
        end = r.limit;
    }
    end
}
