// What one row adds to the sums. `from` is where the row begins in its list.
ghost use Rattle.std.specs.Prelude.{◌≡◌, Float, cond, ◌+◌, ◌-◌, ◌*◌, ◌≤◌, ◌<◌, eqb, length};
ghost use Rattle.definition.specs.Arith.{ieee64};
ghost use Rattle.definition.specs.Memory.{vector_of, row_at, column_at};
ghost use Rattle.sums.specs.Accumulators.{raised};

// Its numbers' terms, to the sums from `at` on.
pub fn add_terms<F: Fn(f64) -> f64>(
    acc: &mut [f64; 225],
    at: usize,
    width: usize,
    list: &[f64],
    from: usize,
    term: &F,
)
    requires sizes { (at + width ≤ 225) × (from + width ≤ length list.now) }
    requires callable { F.IsAlwaysCallable term.now }
    ensures { (f : Float → Float) → ((x y : Float) → F.post term.now x y → y ≡ f x)
        → acc.new ≡ raised ieee64 at (at + width) (λ q. f (vector_of ieee64.none list.now (from + (q - at)))) acc.old }
{
    for q in 0..width {
        acc[at + q] = acc[at + q] + term(list[from + q]);
    }
}

// Column c times each column before it, and at place c times x0, v0's number.
pub fn add_dots(acc: &mut [f64; 225], c: usize, x0: f64, v: &[f64], from: usize)
    requires { (c < 225) × (from + c < length v.now) }
    ensures { acc.new ≡ raised ieee64 0 (c + 1)
        (λ q. ieee64.mul (cond (eqb q c) x0 (vector_of ieee64.none v.now (from + q))) (vector_of ieee64.none v.now (from + c)))
        acc.old }
{
    let x = v[from + c];
    for p in 0..c {
        acc[p] = acc[p] + v[from + p] * x;
    }
    acc[c] = acc[c] + x0 * x;
}

// Each of v's numbers times each of w's.
pub fn add_products(acc: &mut [f64; 225], k: usize, v: &[f64], w: &[f64], from: usize)
    requires { (k ≤ 15) × (from + k ≤ length v.now) × (from + k ≤ length w.now) }
    ensures { acc.new ≡ raised ieee64 0 (k * k)
        (λ q. ieee64.mul (vector_of ieee64.none v.now (from + row_at k k q)) (vector_of ieee64.none w.now (from + column_at k k q)))
        acc.old }
{
    for p in 0..k {
        let x = v[from + p];
        add_terms(acc, p * k, k, w, from, &|y| x * y);
    }
}
