// The five last stages' work on the output: rotate and unscale, subtract the means, scale; and a
// column's scale. A row function gets the chunk's rows as a part that begins at its first row.
ghost use Rattle.std.specs.Prelude.{◌≡◌, Float, ◌+◌, ◌-◌, ◌*◌, ◌≤◌, ◌<◌, length, replicate};
ghost use Rattle.std.specs.Float.{nan};
ghost use Rattle.definition.specs.Arith.{ieee64};
ghost use Rattle.definition.specs.Memory.{place, vector_of, block_of, number_at, fill_range};
ghost use Rattle.definition.specs.Numbers.{dims_most, rows_most};
ghost use Rattle.definition.specs.Requirements.{Columns, Span};
ghost use Rattle.definition.specs.ChunkedColumnReduce.{sum_up};
ghost use Rattle.definition.specs.ChebyshevRayleighRitz.{rotated};
ghost use Rattle.definition.specs.SpectralEmbedding.{unscaled, centred, scaled, spread, scale_of};
ghost use Rattle.columns.specs.Rows.{Output, Turned, shifted};

use numbers::Rows;

// The Ritz vectors, k by k, and the columns of them that are taken, in their order. One lifetime for both, which a caller may
// keep in one record.
#[derive(Clone, Copy)]
pub struct Ritz<'a> {
    pub k: usize,
    pub vectors: &'a [f64; 225],
    pub order: &'a [usize; 15],
}

// A row of the basis times column q of the vectors, upward from +0.
fn turned_number(k: usize, row: &[f64], vectors: &[f64; 225], q: usize) -> f64
    requires { (k ≤ 15) × (q < k) × (k ≤ length row.now) }
    ensures { result ≡ sum_up ieee64 (λ p. ieee64.mul (vector_of nan row.now p) (block_of nan k k vectors.now p q)) 0 k }
{
    let mut sum = 0.0;
    for p in 0..k {
        sum = sum + row[p] * vectors[p * k + q];
    }
    sum
}

// One row of output, at `at`: the row of the basis turned onto the first d Ritz vectors, times the
// row's inverse weight. By index: j is a place of `order` and one of the row.
fn rotate_row(ritz: Ritz<'_>, d: usize, row: &[f64], weight: f64, at: usize, part: &mut [f64])
    requires k_bound { (ritz.k ≤ 15) × (d ≤ ritz.k) × (ritz.k ≤ length row.now) × (at + d ≤ length part.old) }
    requires columns { Columns ritz.order.now 0 d ritz.k }
    ensures { let k = ritz.entry.k in part.new ≡ fill_range at (at + d)
        (λ p. ieee64.mul (rotated ieee64 k (λ r. vector_of nan row.now) (block_of nan k k ritz.entry.vectors.now) ritz.entry.order.now 0 (p - at)) weight)
        part.old }
{
    let Ritz { k, vectors, order } = ritz;
    for j in 0..d {
        part[at + j] = turned_number(k, row, vectors, order[j]) * weight;
    }
}

// The same in the chunk's rows: `part` begins at the first.
pub fn rotate_rows(own: Rows, ritz: Ritz<'_>, v: &[f64], inverse: &[f64], part: &mut [f64])
    requires turned { Turned own.n ritz.k own.width v.now inverse.now ritz.order.now }
    requires span { Span own.first own.end own.n }
    requires part_enough { (own.end - own.first) * own.width ≤ length part.old }
    ensures { let k = ritz.entry.k in let d = own.width in let rows = own.end - own.first in part.new ≡ fill_range 0 (place rows d rows 0)
        (number_at rows d (shifted own.first (unscaled ieee64 (vector_of nan inverse.now)
        (rotated ieee64 k (block_of nan own.n k v.now) (block_of nan k k ritz.entry.vectors.now) ritz.entry.order.now))))
        part.old }
{
    let k = ritz.k;
    let d = own.width;
    let rows = own.end - own.first;
    for r in 0..rows {
        let i = own.first + r;
        let a = i * k;
        let e = a + k;
        rotate_row(ritz, d, &v[a..e], inverse[i], r * d, part);
    }
}

// The same in a chunk of the output.
pub fn rotate_chunk(own: Rows, ritz: Ritz<'_>, v: &[f64], inverse: &[f64], output: &mut [f64])
    requires output { Output own.n own.width own.first own.end output.old }
    requires turned { Turned own.n ritz.k own.width v.now inverse.now ritz.order.now }
    ensures { let k = ritz.entry.k in let n = own.n in let d = own.width in output.new ≡ fill_range (place n d own.first 0) (place n d own.end 0)
        (number_at n d (unscaled ieee64 (vector_of nan inverse.now)
        (rotated ieee64 k (block_of nan n k v.now) (block_of nan k k ritz.entry.vectors.now) ritz.entry.order.now)))
        output.old }
{
    let a = own.first * own.width;
    let e = own.end * own.width;
    rotate_rows(own, ritz, v, inverse, &mut output[a..e]);
}

// The mean of each of the d columns. By index: two cut lists side by side are no plainer.
fn column_means(n: usize, d: usize, sums: &[f64; 225]) -> [f64; 7]
    requires { (n ≤ rows_most) × (d ≤ dims_most) }
    ensures { result ≡ fill_range 0 d (λ j. ieee64.div (vector_of nan sums.now j) (ieee64.whole n)) (replicate 7 ieee64.zero) }
{
    let count = n as f64;
    let mut means = [0.0; 7];
    for j in 0..d {
        means[j] = sums[j] / count;
    }
    means
}

// Each number of one row, at `at`, made what `change` gives for it and its column's number of `by`.
fn change_row<F: Fn(f64, f64) -> f64>(d: usize, by: &[f64], at: usize, part: &mut [f64], change: &F)
    requires sizes { (d ≤ length by.now) × (at + d ≤ length part.old) }
    requires callable { F.IsAlwaysCallable change.now }
    ensures { (f : Float → Float → Float) → ((x y z : Float) → F.post change.now x y z → z ≡ f x y)
        → part.new ≡ fill_range at (at + d) (λ p. f (vector_of nan part.old p) (vector_of nan by.now (p - at))) part.old }
{
    for j in 0..d {
        let p = at + j;
        part[p] = change(part[p], by[j]);
    }
}

// The same in each row of a part.
fn change_rows<F: Fn(f64, f64) -> f64>(
    d: usize,
    by: &[f64],
    rows: usize,
    part: &mut [f64],
    change: F,
)
    requires sizes { (d ≤ length by.now) × (rows * d ≤ length part.old) }
    requires callable { F.IsAlwaysCallable change }
    ensures { (f : Float → Float → Float) → ((x y z : Float) → F.post change x y z → z ≡ f x y)
        → part.new ≡ fill_range 0 (place rows d rows 0) (number_at rows d (λ r j. f (block_of nan rows d part.old r j) (vector_of nan by.now j))) part.old }
{
    for r in 0..rows {
        change_row(d, by, r * d, part, &change);
    }
}

// The means subtracted in each row of a part.
pub fn centre_rows(d: usize, means: &[f64; 7], rows: usize, part: &mut [f64])
    requires { (d ≤ dims_most) × (rows * d ≤ length part.old) }
    ensures { part.new ≡ fill_range 0 (place rows d rows 0)
        (number_at rows d (λ r j. ieee64.sub (block_of nan rows d part.old r j) (vector_of nan means.now j)))
        part.old }
{
    change_rows(d, means, rows, part, |x, mean| x - mean);
}

// The means of the columns whose sums these are, subtracted in a chunk of the output.
pub fn centre_chunk(own: Rows, sums: &[f64; 225], output: &mut [f64])
    requires output { Output own.n own.width own.first own.end output.old }
    requires n_le_rows_most { own.n ≤ rows_most }
    ensures { let n = own.n in let d = own.width in output.new ≡ fill_range (place n d own.first 0) (place n d own.end 0)
        (number_at n d (centred ieee64 n (vector_of nan sums.now) (block_of nan n d output.old)))
        output.old }
{
    let d = own.width;
    let means = column_means(own.n, d, sums);
    let a = own.first * d;
    let e = own.end * d;
    centre_rows(d, &means, own.end - own.first, &mut output[a..e]);
}

// Each row of a part times the columns' scales.
pub fn scale_rows(d: usize, scales: &[f64; 225], rows: usize, part: &mut [f64])
    requires { (d ≤ dims_most) × (rows * d ≤ length part.old) }
    ensures { part.new ≡ fill_range 0 (place rows d rows 0)
        (number_at rows d (scaled ieee64 (vector_of nan scales.now) (block_of nan rows d part.old)))
        part.old }
{
    change_rows(d, scales, rows, part, |x, scale| x * scale);
}

// The same in a chunk of the output.
pub fn scale_chunk(own: Rows, scales: &[f64; 225], output: &mut [f64])
    requires { Output own.n own.width own.first own.end output.old }
    ensures { let n = own.n in let d = own.width in output.new ≡ fill_range (place n d own.first 0) (place n d own.end 0)
        (number_at n d (scaled ieee64 (vector_of nan scales.now) (block_of nan n d output.old)))
        output.old }
{
    let d = own.width;
    let a = own.first * d;
    let e = own.end * d;
    scale_rows(d, scales, own.end - own.first, &mut output[a..e]);
}

// What a column of n rows is multiplied by, from its sum of squares: `target` by its standard
// deviation, or 1.
pub fn column_scale(n: usize, target: f64, squares: f64) -> f64
    requires { n ≤ rows_most }
    ensures { result ≡ scale_of ieee64 target (spread ieee64 n squares) }
{
    let count = n as f64;
    numbers::scale_of(target, numbers::root(squares / count))
}
