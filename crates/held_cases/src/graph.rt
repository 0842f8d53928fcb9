// The graphs of the oracle's `big` rule (oracle/README.md): rings, and hubs where the graph's number is divisible by 4. Hubs of one row
// have no entries, which is document 01's case 11.
use crate::cases::Case;

// A graph's lists have room for 9,000 rows, and for eight entries to a row.
pub const STARTS_MOST: usize = 9001;

pub const ENTRIES_MOST: usize = 72000;

// A graph by its number, at the front of its lists.
#[derive(Drop)]
pub struct Graph {
    pub number: u64,
    pub rows: usize,
    pub entries: usize,
    pub starts: [u64; STARTS_MOST],
    pub columns: [u32; ENTRIES_MOST],
    pub values: [f64; ENTRIES_MOST],
}

// The value of an entry: the pair of its row and column decides it, in either order.
fn entry_value(number: u64, i: usize, j: usize) -> f64 {
    let low = i.min(j) as u64;
    let high = i.max(j) as u64;
    numbers::splitmix_unit(number << 40 | low << 20 | high) + 0.5
}

// The row so many ahead of row i on the ring.
fn ahead(n: usize, i: usize, far: usize) -> usize {
    i.saturating_add(far).checked_rem(n).unwrap_or(0)
}

// Row j, from 4 on, hangs on the hubs j mod 4 and (j + 1) mod 4.
fn is_on_hub(i: usize, j: usize) -> bool {
    let own = j % 4;
    i == own || i == (own + 1) % 4
}

impl Graph {
    // Stores an entry, if the lists have a place for it.
    fn put(&mut self, i: usize, j: usize) {
        let at = self.entries;
        if ENTRIES_MOST <= at {
            return;
        }
        self.columns[at] = (j % 0x1_0000_0000) as u32;
        self.values[at] = entry_value(self.number, i, j);
        self.entries = at + 1;
    }

    fn put_start(&mut self, i: usize) {
        if i < STARTS_MOST {
            self.starts[i] = self.entries as u64;
        }
    }

    // The rows 1 to 4 ahead and behind, in turn.
    fn ring_row(&mut self, i: usize) {
        let n = self.rows;
        for far in 1..5 {
            self.put(i, ahead(n, i, far));
            self.put(i, ahead(n, i, n.saturating_sub(far)));
        }
    }

    fn hub_row(&mut self, i: usize) {
        for j in 4..self.rows {
            if is_on_hub(i, j) {
                self.put(i, j);
            }
        }
    }

    fn spoke_row(&mut self, i: usize) {
        let own = i % 4;
        self.put(i, (own + 1) % 4);
        self.put(i, own);
    }

    fn put_row(&mut self, i: usize) {
        if self.number % 4 != 0 {
            self.ring_row(i);
        } else if i < 4 {
            self.hub_row(i);
        } else {
            self.spoke_row(i);
        }
    }

    // Makes a case's graph.
    pub fn make(&mut self, case: Case) {
        self.number = case.number;
        self.rows = case.rows;
        self.entries = 0;
        for i in 0..case.rows {
            self.put_start(i);
            self.put_row(i);
        }
        self.put_start(case.rows);
    }
}
