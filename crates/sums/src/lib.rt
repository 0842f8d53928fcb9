// Every reduction of document 01: a chunk's partial for each stage that has one, and the serial totals when the stage closes.
//
// A partial is summed in an array of its own and copied out at the end: the compiler can't know that a lent list is not the block that is
// read, and would store every sum at every row. That array has 225 numbers, for the widest block, whatever the width: fixed memory, no
// heap. Where a partial goes, `base` and `partials`, stays two parameters: each contract of a struct of a `&mut`
// list wants one clause more: that the list is the same place after the call.
#![tactic(auto)]

ghost use Rattle.std.specs.Prelude.{◌≡◌, ◌+◌, ◌*◌, ◌≤◌, ◌<◌, length, replicate};
ghost use Rattle.definition.specs.Arith.{ieee64};
ghost use Rattle.definition.specs.ChunkedColumnReduce.{sum_up, square};
ghost use Rattle.definition.specs.OrthonormalizeBlock.{dot_term};
ghost use Rattle.definition.specs.SpectralEmbedding.{isolated_rows, root_norm};
ghost use Rattle.definition.specs.Memory.{vector_of, block_of, fill_range};
ghost use Rattle.definition.specs.Requirements.{Span, Width};
ghost use Rattle.sums.specs.Accumulators.{with_partial, product_term};

use numbers::Rows;

mod row; // row.rt: what one row adds to the sums
mod rows; // rows.rt: the sums over the rows from `first` up to `end`
mod put; // put.rt: the sums, copied to their place among the partials

// The squares of column c: the norm before and the norm after.
pub fn norm_partial(own: Rows, c: usize, v: &[f64], base: usize, partials: &mut [f64])
    requires span { Span own.first own.end own.n }
    requires width { Width own.width }
    requires c_lt_k { (c < own.width) × (own.n * own.width ≤ length v.now) × (base + 1 ≤ length partials.old) }
    ensures { partials.new ≡ with_partial ieee64 base 1
        (λ q i. square ieee64 (block_of ieee64.none own.n own.width v.now i c)) own.first own.end partials.old }
{
    partials[base] = rows::square_sum(own, c, v);
}

// Column c's dots with the columns before it, and at place c with v0.
pub fn dots_partial(own: Rows, c: usize, v0: &[f64], v: &[f64], base: usize, partials: &mut [f64])
    requires span { Span own.first own.end own.n }
    requires width { Width own.width }
    requires c_lt_k { (c < own.width) × (own.n ≤ length v0.now) × (own.n * own.width ≤ length v.now) × (base + (c + 1) ≤ length partials.old) }
    ensures { partials.new ≡ with_partial ieee64 base (c + 1)
        (dot_term ieee64 (vector_of ieee64.none v0.now) (block_of ieee64.none own.n own.width v.now) c) own.first own.end partials.old }
{
    let sums = rows::dots(own, c, v0, v);
    put::put_partial(base, c + 1, &sums, partials);
}

// Each column of v times each of w: column p of v and column q of w at place p * k + q.
pub fn products_partial(own: Rows, v: &[f64], w: &[f64], base: usize, partials: &mut [f64])
    requires span { Span own.first own.end own.n }
    requires width { Width own.width }
    requires k_in_bounds { let k = own.width in
        (own.n * k ≤ length v.now) × (own.n * k ≤ length w.now) × (base + k * k ≤ length partials.old) }
    ensures { let n = own.n in let k = own.width in partials.new ≡ with_partial ieee64 base (k * k)
        (product_term ieee64 k (block_of ieee64.none n k v.now) (block_of ieee64.none n k w.now)) own.first own.end partials.old }
{
    let k = own.width;
    let sums = rows::products(own, v, w);
    put::put_partial(base, k * k, &sums, partials);
}

// The columns of the output.
pub fn sums_partial(own: Rows, output: &[f64], base: usize, partials: &mut [f64])
    requires span { Span own.first own.end own.n }
    requires le_d { let d = own.width in (1 ≤ d) × (d ≤ 7) × (own.n * d ≤ length output.now) × (base + d ≤ length partials.old) }
    ensures { let n = own.n in let d = own.width in partials.new ≡ with_partial ieee64 base d
        (λ q i. block_of ieee64.none n d output.now i q) own.first own.end partials.old }
{
    let d = own.width;
    let mut sums = [0.0; 225];
    rows::terms(own, d, output, |x| x, &mut sums);
    put::put_partial(base, d, &sums, partials);
}

// The squares of the columns of the output.
pub fn squares_partial(own: Rows, output: &[f64], base: usize, partials: &mut [f64])
    requires span { Span own.first own.end own.n }
    requires le_d { let d = own.width in (1 ≤ d) × (d ≤ 7) × (own.n * d ≤ length output.now) × (base + d ≤ length partials.old) }
    ensures { let n = own.n in let d = own.width in partials.new ≡ with_partial ieee64 base d
        (λ q i. square ieee64 (block_of ieee64.none n d output.now i q)) own.first own.end partials.old }
{
    let d = own.width;
    let mut sums = [0.0; 225];
    rows::terms(own, d, output, |x| x * x, &mut sums);
    put::put_partial(base, d, &sums, partials);
}

// A stage's totals: its partials, chunk by chunk, a number at each place below the width. What stood in `sums` is not kept.
pub fn totals(chunks: usize, k: usize, width: usize, partials: &[f64], sums: &mut [f64; 225])
    requires { (k ≤ 15) × (width ≤ k * k) × (chunks * k * k ≤ length partials.now) }
    ensures { sums.new ≡ fill_range 0 width (λ p. sum_up ieee64 (λ h. vector_of ieee64.none partials.now (h * (k * k) + p)) 0 chunks)
        (replicate 225 ieee64.zero) }
{
    let all = Rows {
        n: chunks,
        width: k * k,
        first: 0,
        end: chunks,
    };
    rows::terms(all, width, partials, |x| x, sums);
}

// The root of the total at place 0: a column's norm.
pub fn total_norm(chunks: usize, k: usize, partials: &[f64]) -> f64
    requires width { Width k }
    requires k_in_bounds { chunks * k * k ≤ length partials.now }
    ensures { result ≡ ieee64.root (sum_up ieee64 (λ h. vector_of ieee64.none partials.now (h * (k * k))) 0 chunks) }
{
    let mut sums = [0.0; 225];
    totals(chunks, k, 1, partials, &mut sums);
    numbers::root(sums[0])
}

// How many of v0's roots are those of isolated rows.
pub fn isolated_rows(n: usize, v0: &[f64]) -> usize
    requires { n ≤ length v0.now }
    ensures { result ≡ isolated_rows ieee64 n (vector_of ieee64.none v0.now) }
{
    let mut count = 0;
    for i in 0..n {
        count += usize::from(!numbers::above_floor(v0[i]));
    }
    count
}

// The norm of v0's roots: one sum over all n rows, and in no chunks.
pub fn root_norm(n: usize, v0: &[f64]) -> f64
    requires { n ≤ length v0.now }
    ensures { result ≡ root_norm ieee64 n (vector_of ieee64.none v0.now) }
{
    let all = Rows {
        n,
        width: 1,
        first: 0,
        end: n,
    };
    numbers::root(rows::square_sum(all, 0, v0))
}
