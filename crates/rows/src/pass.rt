// One pass of the operator: a row at a time, its entries gathered into an array of at most 15
// numbers, mixed, and copied out. A direct store into `out` would stop the compiler from keeping
// the row in registers. The array is as long as the widest row: fixed memory, no heap.
ghost use Rattle.std.specs.Prelude.{◌≡◌, ◌+◌, ◌-◌, ◌*◌, ◌≤◌, length, replicate};
ghost use Rattle.definition.specs.Arith.{ieee64};
ghost use Rattle.definition.specs.MatvecCombine.{mixed_with, shifted};
ghost use Rattle.definition.specs.Memory.{block_of, fill_range, place, vector_of};
ghost use Rattle.numbers.specs.Answers.{multipliers_of};
ghost use Rattle.rows.specs.Pass.{combined_at, gathered, operator_of, Entries, Pass};

use numbers::{Multipliers, Rows};
use view::RowView;

// acc[c] + weight * v[from + c], for each c below k.
fn add_entry(acc: &mut [f64; 15], k: usize, weight: f64, v: &[f64], from: usize)
    requires { (k ≤ 15) × (from + k ≤ length v.now) }
    ensures { acc.new ≡ fill_range 0 k
        (λ c. ieee64.add (vector_of ieee64.none acc.old c) (ieee64.mul weight (vector_of ieee64.none v.now (from + c))))
        acc.old }
{
    for c in 0..k {
        acc[c] = acc[c] + weight * v[from + c];
    }
}

// A row's entries, one after another.
fn gather_entries(n: usize, k: usize, columns: &[u32], weights: &[f64], v: &[f64]) -> [f64; 15]
    requires { Entries n k 0 (length columns.now) columns.now weights.now v.now }
    ensures { result ≡ fill_range 0 k
        (gathered ieee64 columns.now weights.now (block_of ieee64.none n k v.now) 0 (length columns.now))
        (replicate 15 ieee64.zero) }
{
    let mut acc = [0.0; 15];
    for p in 0..columns.len() {
        let row = columns[p] as usize;
        add_entry(&mut acc, k, weights[p], v, row * k);
    }
    acc
}

// The same of a row's view: made once a row, so that the loop runs on its slices.
fn gather_view<'a, 'b, 'v>(n: usize, k: usize, row: RowView<'a, 'b>, v: &'v [f64]) -> [f64; 15]
    requires { Entries n k 0 (length row.columns.now) row.columns.now row.weights.now v.now }
    ensures { result ≡ fill_range 0 k
        (gathered ieee64 row.entry.columns.now row.entry.weights.now (block_of ieee64.none n k v.now) 0 (length row.entry.columns.now))
        (replicate 15 ieee64.zero) }
{
    gather_entries(n, k, row.columns, row.weights, v)
}

// The entries from a up to e.
fn gather(
    n: usize,
    k: usize,
    a: usize,
    e: usize,
    columns: &[u32],
    weights: &[f64],
    v: &[f64],
) -> [f64; 15]
    requires { Entries n k a e columns.now weights.now v.now }
    ensures { result ≡ fill_range 0 k
        (gathered ieee64 columns.now weights.now (block_of ieee64.none n k v.now) a e)
        (replicate 15 ieee64.zero) }
{
    gather_view(n, k, RowView::new(columns, weights, a, e), v)
}

// A row of the result, of the row of v and prev that begins at `from`.
fn mix_row(
    k: usize,
    by: Multipliers,
    inverse: f64,
    acc: &[f64; 15],
    from: usize,
    v: &[f64],
    prev: &[f64],
) -> [f64; 15]
    requires { (k ≤ 15) × (from + k ≤ length v.now) × (from + k ≤ length prev.now) }
    ensures { result ≡ fill_range 0 k
        (λ c. mixed_with ieee64 (multipliers_of by)
        (shifted ieee64 inverse (vector_of ieee64.none v.now (from + c)) (vector_of ieee64.none acc.now c))
        (vector_of ieee64.none v.now (from + c)) (vector_of ieee64.none prev.now (from + c)))
        (replicate 15 ieee64.zero) }
{
    let mut mixed = [0.0; 15];
    for c in 0..k {
        let x = v[from + c];
        let mv = 0.5 * (x + inverse * acc[c]);
        mixed[c] = by.of_mv * mv + by.of_v * x + by.of_prev * prev[from + c];
    }
    mixed
}

// The first k of `row`, at `to`.
fn put_row(k: usize, row: &[f64; 15], to: usize, out: &mut [f64])
    requires { (k ≤ 15) × (to + k ≤ length out.old) }
    ensures { out.new ≡ fill_range to (to + k) (λ p. vector_of ieee64.none row.now (p - to)) out.old }
{
    out[to..to + k].copy_from_slice(&row[..k]);
}

// The operator that a pass applies: row starts, edge columns and weights, and inverse weights.
#[derive(Clone, Copy)]
pub struct Operator<'a> {
    pub starts: &'a [u64],
    pub columns: &'a [u32],
    pub weights: &'a [f64],
    pub inverse: &'a [f64],
}

// The chunk's rows: `out` begins at the first. A compiled copy for each width K.
fn combine_rows<const K: usize>(
    own: Rows,
    by: Multipliers,
    op: Operator<'_>,
    v: &[f64],
    prev: &[f64],
    out: &mut [f64],
)
    requires pass { Pass own.n K own.first own.end op.starts.now op.columns.now op.weights.now op.inverse.now v.now prev.now }
    requires out_len { length out.old ≡ (own.end - own.first) * K }
    ensures { out.new ≡ fill_range 0 (length out.old)
        (λ p. combined_at ieee64 own.n K (operator_of ieee64 op.entry.starts.now op.entry.columns.now op.entry.weights.now op.entry.inverse.now)
        (multipliers_of by) v.now prev.now (place own.n K own.first 0 + p))
        out.old }
{
    let Rows { n, first, end, .. } = own;
    let rows = end - first;
    for r in 0..rows {
        let i = first + r;
        let a = op.starts[i] as usize;
        let e = op.starts[i + 1] as usize;
        let acc = gather(n, K, a, e, op.columns, op.weights, v);
        let row = mix_row(K, by, op.inverse[i], &acc, i * K, v, prev);
        put_row(K, &row, r * K, out);
    }
}

// The same, by the copy for the rows' width.
fn matvec_combine_rows(
    own: Rows,
    by: Multipliers,
    op: Operator<'_>,
    v: &[f64],
    prev: &[f64],
    out: &mut [f64],
)
    requires pass { Pass own.n own.width own.first own.end op.starts.now op.columns.now op.weights.now op.inverse.now v.now prev.now }
    requires out_len { length out.old ≡ (own.end - own.first) * own.width }
    ensures { let n = own.n in let k = own.width in out.new ≡ fill_range 0 (length out.old)
        (λ p. combined_at ieee64 n k (operator_of ieee64 op.entry.starts.now op.entry.columns.now op.entry.weights.now op.entry.inverse.now)
        (multipliers_of by) v.now prev.now (place n k own.first 0 + p))
        out.old }
{
    match own.width {
        9 => combine_rows::<9>(own, by, op, v, prev, out),
        10 => combine_rows::<10>(own, by, op, v, prev, out),
        11 => combine_rows::<11>(own, by, op, v, prev, out),
        12 => combine_rows::<12>(own, by, op, v, prev, out),
        13 => combine_rows::<13>(own, by, op, v, prev, out),
        14 => combine_rows::<14>(own, by, op, v, prev, out),
        _ => combine_rows::<15>(own, by, op, v, prev, out),
    }
}

// The chunk's rows of the block `out`: filter pass and plain pass alike.
pub fn matvec_combine(
    own: Rows,
    by: Multipliers,
    op: Operator<'_>,
    v: &[f64],
    prev: &[f64],
    out: &mut [f64],
)
    requires pass { Pass own.n own.width own.first own.end op.starts.now op.columns.now op.weights.now op.inverse.now v.now prev.now }
    requires k_in_bounds { own.n * own.width ≤ length out.old }
    ensures { let n = own.n in let k = own.width in out.new ≡ fill_range (place n k own.first 0) (place n k own.end 0)
        (combined_at ieee64 n k (operator_of ieee64 op.entry.starts.now op.entry.columns.now op.entry.weights.now op.entry.inverse.now)
        (multipliers_of by) v.now prev.now)
        out.old }
{
    let a = own.first * own.width;
    let e = own.end * own.width;
    matvec_combine_rows(own, by, op, v, prev, &mut out[a..e]);
}
