// The sums over the rows from `first` up to `end`, each from +0 and upward.
ghost use Rattle.std.specs.Prelude.{◌≡◌, Float, ◌+◌, ◌*◌, ◌≤◌, ◌<◌, length};
ghost use Rattle.definition.specs.Arith.{ieee64};
ghost use Rattle.definition.specs.ChunkedColumnReduce.{sum_up, square};
ghost use Rattle.definition.specs.OrthonormalizeBlock.{dot_term};
ghost use Rattle.definition.specs.Memory.{vector_of, block_of};
ghost use Rattle.definition.specs.Requirements.{Span};
ghost use Rattle.sums.specs.Accumulators.{summed, product_term};

use crate::row;
use numbers::Rows;

// The squares of the numbers at place c of each row.
pub fn square_sum(own: Rows, c: usize, list: &[f64]) -> f64
    requires { (c < own.width) × (own.first ≤ own.end) × (own.end * own.width ≤ length list.now) }
    ensures { result ≡ sum_up ieee64 (λ i. square ieee64 (vector_of ieee64.none list.now (i * own.width + c))) own.first own.end }
{
    let Rows {
        width: stride,
        first,
        end,
        ..
    } = own;
    let mut acc = 0.0;
    for i in first..end {
        let x = list[i * stride + c];
        acc = acc + x * x;
    }
    acc
}

// The terms of the first `width` numbers of each row, in `acc`, whatever stood there.
pub fn terms<F: Fn(f64) -> f64>(
    own: Rows,
    width: usize,
    list: &[f64],
    term: F,
    acc: &mut [f64; 225],
)
    requires sizes { (width ≤ own.width) × (width ≤ 225) × (own.first ≤ own.end) × (own.end * own.width ≤ length list.now) }
    requires callable { F.IsAlwaysCallable term }
    ensures { (f : Float → Float) → ((x y : Float) → F.post term x y → y ≡ f x)
        → acc.new ≡ summed ieee64 width (λ q i. f (vector_of ieee64.none list.now (i * own.width + q))) own.first own.end }
{
    let Rows {
        width: stride,
        first,
        end,
        ..
    } = own;
    *acc = [0.0; 225];
    for i in first..end {
        row::add_terms(acc, 0, width, list, i * stride, &term);
    }
}

// The dots of column c. This loop and the next stay beside `terms`: a closure that adds a row would
// lend it the sums and ask for the bounds of its row, which is more than the three lines here.
pub fn dots(own: Rows, c: usize, v0: &[f64], v: &[f64]) -> [f64; 225]
    requires span { Span own.first own.end own.n }
    requires k_bound { (own.width ≤ 15) × (c < own.width) × (own.n ≤ length v0.now) × (own.n * own.width ≤ length v.now) }
    ensures { result ≡ summed ieee64 (c + 1)
        (dot_term ieee64 (vector_of ieee64.none v0.now) (block_of ieee64.none own.n own.width v.now) c) own.first own.end }
{
    let Rows {
        width: k,
        first,
        end,
        ..
    } = own;
    let mut acc = [0.0; 225];
    for i in first..end {
        row::add_dots(&mut acc, c, v0[i], v, i * k);
    }
    acc
}

// The products of the columns of v and w.
pub fn products(own: Rows, v: &[f64], w: &[f64]) -> [f64; 225]
    requires span { Span own.first own.end own.n }
    requires k_bound { (own.width ≤ 15) × (own.n * own.width ≤ length v.now) × (own.n * own.width ≤ length w.now) }
    ensures { let n = own.n in let k = own.width in
        result ≡ summed ieee64 (k * k) (product_term ieee64 k (block_of ieee64.none n k v.now) (block_of ieee64.none n k w.now)) own.first own.end }
{
    let Rows {
        width: k,
        first,
        end,
        ..
    } = own;
    let mut acc = [0.0; 225];
    for i in first..end {
        row::add_products(&mut acc, k, v, w, i * k);
    }
    acc
}
