// Degrees: each row's root and inverse weight, and v0 from the roots. `first` and `end` stand alone and not in a `Rows`: a list
// here has one number a row, and how many rows there are is asked of it, not of a caller.
ghost use Rattle.std.specs.Prelude.{◌≡◌, ◌+◌, ◌≤◌, length};
ghost use Rattle.definition.specs.Arith.{ieee64};
ghost use Rattle.definition.specs.ChunkedColumnReduce.{sum_up};
ghost use Rattle.definition.specs.Memory.{fill_range, vector_of, wholes_of};
ghost use Rattle.definition.specs.Requirements.{Span, Starts};
ghost use Rattle.definition.specs.SpectralEmbedding.{degree_root, inverse_weight, v0_of};

// The values from a up to e, upward from +0.
fn sum_values(values: &[f64], a: usize, e: usize) -> f64
    requires { (a ≤ e) × (e ≤ length values.now) }
    ensures { result ≡ sum_up ieee64 (vector_of ieee64.none values.now) a e }
{
    let mut sum = 0.0;
    for value in &values[a..e] {
        sum += *value;
    }
    sum
}

// The rows from `first` on, as many as the two parts have. By index: a row reads two places of
// `starts` and writes one of each part.
fn degrees_rows(first: usize, starts: &[u64], values: &[f64], inverse: &mut [f64], v0: &mut [f64])
    requires v0_len { length v0.old ≡ length inverse.old }
    requires starts { Starts starts.now first (first + length inverse.old) (length values.now) }
    ensures inverse_after { inverse.new ≡ fill_range 0 (length inverse.old)
        (λ i. inverse_weight ieee64 (wholes_of starts.now) (vector_of ieee64.none values.now) (first + i)) inverse.old }
    ensures v0_after { v0.new ≡ fill_range 0 (length v0.old)
        (λ i. degree_root ieee64 (wholes_of starts.now) (vector_of ieee64.none values.now) (first + i)) v0.old }
{
    for i in 0..inverse.len() {
        let row = first + i;
        let a = starts[row] as usize;
        let e = starts[row + 1] as usize;
        let root = numbers::root(sum_values(values, a, e));
        inverse[i] = numbers::inverse_of(root);
        v0[i] = root;
    }
}

// Degrees of the rows from `first` up to `end`: the roots are left in v0's memory.
pub fn degrees_chunk(
    first: usize,
    end: usize,
    starts: &[u64],
    values: &[f64],
    inverse: &mut [f64],
    v0: &mut [f64],
)
    requires starts { Starts starts.now first end (length values.now) }
    requires span { Span first end (length inverse.old) }
    requires span_2 { Span first end (length v0.old) }
    ensures inverse_after { inverse.new ≡ fill_range first end
        (inverse_weight ieee64 (wholes_of starts.now) (vector_of ieee64.none values.now)) inverse.old }
    ensures v0_after { v0.new ≡ fill_range first end
        (degree_root ieee64 (wholes_of starts.now) (vector_of ieee64.none values.now)) v0.old }
{
    degrees_rows(
        first,
        starts,
        values,
        &mut inverse[first..end],
        &mut v0[first..end],
    );
}

// Roots made v0 where they stand.
fn v0_rows(norm: f64, v0: &mut [f64])
    ensures { v0.new ≡ fill_range 0 (length v0.old)
        (λ i. v0_of ieee64 norm (vector_of ieee64.none v0.old i)) v0.old }
{
    for x in v0.iter_mut() {
        *x = numbers::v0_of(norm, *x);
    }
}

// The rows from `first` up to `end`.
pub fn v0_chunk(first: usize, end: usize, norm: f64, v0: &mut [f64])
    requires { Span first end (length v0.old) }
    ensures { v0.new ≡ fill_range first end
        (λ i. v0_of ieee64 norm (vector_of ieee64.none v0.old i)) v0.old }
{
    v0_rows(norm, &mut v0[first..end]);
}
