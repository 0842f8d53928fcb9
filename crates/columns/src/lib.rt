// The work within a block that orthonormalizing does, a column at a time. Each row function gets the
// chunk's rows as a part that begins at its first row, with that row's number where the work needs it.
// Each chunk function lends that part on and says what the whole block holds then; n is part of what it
// says, since where a block keeps a number may hang on it.
// Dots, vectors and scales are arrays of 225 numbers, for the widest block, whatever the width: fixed memory, no heap.
#![tactic(auto)]

ghost use Rattle.std.specs.Prelude.{◌≡◌, ℕ, Float, ◌+◌, ◌≤◌, ◌<◌, length};
ghost use Rattle.std.specs.Float.{nan};
ghost use Rattle.definition.specs.Arith.{ieee64};
ghost use Rattle.definition.specs.Memory.{place, vector_of, block_of, number_at, fill_range};
ghost use Rattle.definition.specs.OrthonormalizeBlock.{with_column, delta, subtracted, kept, refreshed, zeroed, fresh_index, written};
ghost use Rattle.columns.specs.Rows.{Part, Within, Fresh, shifted};

pub mod marks;
pub mod output;

use numbers::Rows;

// Column c of a part of `rows` rows of `width` numbers each.
#[derive(Clone, Copy, Debug, PartialEq)]
pub struct Column {
    pub width: usize,
    pub c: usize,
    pub rows: usize,
}

// What column c loses in a row: v0's share first, then the columns before c, upward.
fn row_delta(c: usize, dots: &[f64; 225], own: f64, row: &[f64]) -> f64
    requires { (c < 225) × (c ≤ length row.now) }
    ensures { result ≡ delta ieee64 (vector_of nan dots.now) own (vector_of nan row.now) c }
{
    let mut sum = dots[c] * own;
    for p in 0..c {
        sum = sum + dots[p] * row[p];
    }
    sum
}

// The delta taken from column c, in the rows from `first` on. A loop of its own and not `write_rows`: a row's delta reads
// the row's other numbers, and a closure over the part that is written can't.
pub fn subtract_rows(column: Column, dots: &[f64; 225], first: usize, v0: &[f64], part: &mut [f64])
    requires part { Part column.width column.c column.rows part.old }
    requires rows_in_bounds { first + column.rows ≤ length v0.now }
    ensures { let k = column.width in let rows = column.rows in part.new ≡ fill_range 0 (place rows k rows 0)
        (number_at rows k (subtracted ieee64 (vector_of nan dots.now) (shifted first (vector_of nan v0.now)) (block_of nan rows k part.old) column.c))
        part.old }
{
    let Column { width: k, c, rows } = column;
    for r in 0..rows {
        let at = r * k;
        let e = at + c;
        let taken = row_delta(c, dots, v0[first + r], &part[at..e]);
        part[e] = part[e] - taken;
    }
}

// The same in a chunk of the block.
pub fn subtract_chunk(own: Rows, c: usize, dots: &[f64; 225], v0: &[f64], block: &mut [f64])
    requires within { Within own.n own.width c own.first own.end block.old }
    requires n_in_bounds { own.n ≤ length v0.now }
    ensures { let n = own.n in let k = own.width in block.new ≡ fill_range (place n k own.first 0) (place n k own.end 0)
        (number_at n k (subtracted ieee64 (vector_of nan dots.now) (vector_of nan v0.now) (block_of nan n k block.old) c))
        block.old }
{
    let column = Column {
        width: own.width,
        c,
        rows: own.end - own.first,
    };
    let a = own.first * own.width;
    let e = own.end * own.width;
    subtract_rows(column, dots, own.first, v0, &mut block[a..e]);
}

// Column c of each row made what `number` gives for the row and what stood there.
fn write_rows<F: Fn(usize, f64) -> f64>(column: Column, part: &mut [f64], number: F)
    requires part { Part column.width column.c column.rows part.old }
    requires callable { (r : ℕ) (x : Float) → r < column.rows → F.pre number r x }
    ensures { let k = column.width in let c = column.c in let rows = column.rows in
        (f : ℕ → Float) → ((r : ℕ) (y : Float) → r < rows → F.post number r (block_of nan rows k part.old r c) y → y ≡ f r)
        → part.new ≡ fill_range 0 (place rows k rows 0) (number_at rows k (with_column ieee64 (block_of nan rows k part.old) c f)) part.old }
{
    let Column { width: k, c, rows } = column;
    for r in 0..rows {
        let at = r * k + c;
        part[at] = number(r, part[at]);
    }
}

// Column c divided by its norm: it is kept.
pub fn divide_rows(column: Column, norm: f64, part: &mut [f64])
    requires { Part column.width column.c column.rows part.old }
    ensures { let k = column.width in let c = column.c in let rows = column.rows in part.new ≡ fill_range 0 (place rows k rows 0)
        (number_at rows k (with_column ieee64 (block_of nan rows k part.old) c (λ r. ieee64.div (block_of nan rows k part.old r c) norm)))
        part.old }
{
    write_rows(column, part, |_, x| x / norm);
}

// The same in a chunk of the block. The end of the write is the same in every round.
pub fn divide_chunk(own: Rows, c: usize, norm: f64, block: &mut [f64])
    requires { Within own.n own.width c own.first own.end block.old }
    ensures { let n = own.n in let k = own.width in
        (round : ℕ) → block.new ≡ fill_range (place n k own.first 0) (place n k own.end 0)
        (number_at n k (written ieee64 n k round c (kept norm) (block_of nan n k block.old)))
        block.old }
{
    let column = Column {
        width: own.width,
        c,
        rows: own.end - own.first,
    };
    let a = own.first * own.width;
    let e = own.end * own.width;
    divide_rows(column, norm, &mut block[a..e]);
}

// The fresh number for row i of column c, by its index.
fn fresh_number(n: usize, k: usize, round: usize, c: usize, i: usize) -> f64
    requires fresh { Fresh n k round }
    requires c_lt_k { (c < k) × (i < n) }
    ensures { result ≡ ieee64.start (fresh_index n k round c i) }
{
    let index = (round + 1) * n * k + c * n + i;
    numbers::splitmix_unit(index as u64)
}

// Column c refreshed, in the rows from `first` on.
pub fn refresh_rows(n: usize, column: Column, round: usize, first: usize, part: &mut [f64])
    requires part { Part column.width column.c column.rows part.old }
    requires fresh { Fresh n column.width round }
    requires rows_bound { first + column.rows ≤ n }
    ensures { let k = column.width in let c = column.c in let rows = column.rows in part.new ≡ fill_range 0 (place rows k rows 0)
        (number_at rows k (with_column ieee64 (block_of nan rows k part.old) c (λ r. ieee64.start (fresh_index n k round c (first + r)))))
        part.old }
{
    let Column { width, c, .. } = column;
    write_rows(
        column,
        part,
        |r, _| fresh_number(n, width, round, c, first + r),
    );
}

// The same in a chunk of the block.
pub fn refresh_chunk(own: Rows, c: usize, round: usize, block: &mut [f64])
    requires within { Within own.n own.width c own.first own.end block.old }
    requires fresh { Fresh own.n own.width round }
    ensures { let n = own.n in let k = own.width in block.new ≡ fill_range (place n k own.first 0) (place n k own.end 0)
        (number_at n k (written ieee64 n k round c refreshed (block_of nan n k block.old)))
        block.old }
{
    let column = Column {
        width: own.width,
        c,
        rows: own.end - own.first,
    };
    let a = own.first * own.width;
    let e = own.end * own.width;
    refresh_rows(own.n, column, round, own.first, &mut block[a..e]);
}

// Column c zeroed with +0.
pub fn zero_rows(column: Column, part: &mut [f64])
    requires { Part column.width column.c column.rows part.old }
    ensures { let k = column.width in let c = column.c in let rows = column.rows in part.new ≡ fill_range 0 (place rows k rows 0)
        (number_at rows k (with_column ieee64 (block_of nan rows k part.old) c (λ r. ieee64.zero)))
        part.old }
{
    write_rows(column, part, |_, _| 0.0);
}

// The same in a chunk of the block, in every round.
pub fn zero_chunk(own: Rows, c: usize, block: &mut [f64])
    requires { Within own.n own.width c own.first own.end block.old }
    ensures { let n = own.n in let k = own.width in
        (round : ℕ) → block.new ≡ fill_range (place n k own.first 0) (place n k own.end 0)
        (number_at n k (written ieee64 n k round c zeroed (block_of nan n k block.old)))
        block.old }
{
    let column = Column {
        width: own.width,
        c,
        rows: own.end - own.first,
    };
    let a = own.first * own.width;
    let e = own.end * own.width;
    zero_rows(column, &mut block[a..e]);
}
