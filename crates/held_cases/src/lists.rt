// The lent lists, and what is done to them. Nothing here asks for lengths: what does not fit is left out, and a digest shows it.
use crate::cases::Case;
use crate::digest;
use crate::plan::Spoil;

// What lists are filled with.
pub const LENT: f64 = 5.0;

// Numbers behind those that a run needs, which it must leave alone.
const BEHIND: usize = 3;

// The lists have room for 9,000 rows, eight entries to a row, two dimensions and two rounds, and for what a run must leave alone behind its
// own numbers. Partials, marks and the Ritz record have room for two runs.
pub const ROWS: usize = 9003;

pub const ENTRIES: usize = 72003;

pub const BLOCK: usize = 90003;

pub const PARTIALS: usize = 606;

pub const MARKS: usize = 12;

pub const OUTPUT: usize = 18003;

pub const RECORD: usize = 50;

// The lent eleven, in their order.
#[derive(Drop)]
pub struct Lists {
    pub inverse: [f64; ROWS],
    pub v0: [f64; ROWS],
    pub edge_columns: [u32; ENTRIES],
    pub edge_weights: [f64; ENTRIES],
    pub block0: [f64; BLOCK],
    pub block1: [f64; BLOCK],
    pub block2: [f64; BLOCK],
    pub partials: [f64; PARTIALS],
    pub marks: [u8; MARKS],
    pub output: [f64; OUTPUT],
    pub ritz_record: [f64; RECORD],
}

// How many numbers of each lent list are meant: the list of a row's numbers, of an entry's, and so on.
#[derive(Clone, Copy)]
pub struct Sizes {
    rows: usize,
    entries: usize,
    block: usize,
    partials: usize,
    marks: usize,
    output: usize,
    record: usize,
}

impl Sizes {
    // Whole lists.
    pub const ALL: Sizes = Sizes {
        rows: usize::MAX,
        entries: usize::MAX,
        block: usize::MAX,
        partials: usize::MAX,
        marks: usize::MAX,
        output: usize::MAX,
        record: usize::MAX,
    };

    // How much of the lists a run is compared by while it goes on.
    pub fn of(case: Case, entries: usize) -> Self {
        let wide = case.wide();
        let chunks = case.chunks();
        let square = wide.saturating_mul(wide);
        Sizes {
            rows: case.rows.saturating_add(BEHIND),
            entries: entries.saturating_add(BEHIND),
            block: case.rows.saturating_mul(wide).saturating_add(BEHIND),
            partials: chunks.saturating_mul(square).saturating_add(BEHIND),
            marks: chunks.saturating_add(BEHIND),
            output: case.seed().saturating_add(BEHIND),
            record: case.record().saturating_add(BEHIND),
        }
    }
}

// The first numbers of a list, and the whole of it where it has no more.
pub fn front<T>(list: &[T], count: usize) -> &[T] {
    list.get(..count).unwrap_or(list)
}

// A list's front changes places with the front of its second half: what was at the front is elsewhere, and something else stands there.
// A second change brings it back.
fn change<T: Drop>(list: &mut [T], count: usize) {
    let half = list.len() / 2;
    for i in 0..count.min(half) {
        list.swap(i, half + i);
    }
}

impl Lists {
    // Nothing is left of the run before.
    pub fn fill(&mut self) {
        self.inverse.fill(LENT);
        self.v0.fill(LENT);
        self.edge_columns.fill(5);
        self.edge_weights.fill(LENT);
        self.block0.fill(LENT);
        self.block1.fill(LENT);
        self.block2.fill(LENT);
        self.partials.fill(LENT);
        self.marks.fill(5);
        self.output.fill(LENT);
        self.ritz_record.fill(LENT);
    }

    pub fn digest(&self, sizes: Sizes) -> u64 {
        let d = digest::EMPTY;
        let d = digest::with_all(d, front(&self.inverse, sizes.rows));
        let d = digest::with_all(d, front(&self.v0, sizes.rows));
        let d = digest::with_all(d, front(&self.edge_columns, sizes.entries));
        let d = digest::with_all(d, front(&self.edge_weights, sizes.entries));
        let d = digest::with_all(d, front(&self.block0, sizes.block));
        let d = digest::with_all(d, front(&self.block1, sizes.block));
        let d = digest::with_all(d, front(&self.block2, sizes.block));
        let d = digest::with_all(d, front(&self.partials, sizes.partials));
        let d = digest::with_all(d, front(&self.marks, sizes.marks));
        let d = digest::with_all(d, front(&self.output, sizes.output));
        digest::with_all(d, front(&self.ritz_record, sizes.record))
    }

    // The front of each list is changed for something else.
    pub fn change(&mut self, sizes: Sizes) {
        change(&mut self.inverse, sizes.rows);
        change(&mut self.v0, sizes.rows);
        change(&mut self.edge_columns, sizes.entries);
        change(&mut self.edge_weights, sizes.entries);
        change(&mut self.block0, sizes.block);
        change(&mut self.block1, sizes.block);
        change(&mut self.block2, sizes.block);
        change(&mut self.partials, sizes.partials);
        change(&mut self.marks, sizes.marks);
        change(&mut self.output, sizes.output);
        change(&mut self.ritz_record, sizes.record);
    }

    // One number spoiled; done once more, it is mended. The first mark becomes 2 or 3, and the first column one near 2^32, that no row has.
    pub fn spoil(&mut self, spoil: Option<Spoil>) {
        match spoil {
            Some(Spoil::Mark) => self.marks[0] ^= 2,
            Some(Spoil::Edge) => self.edge_columns[0] ^= 0xffff_ffff,
            _ => {}
        }
    }
}
