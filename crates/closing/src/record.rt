// A round's places of the Ritz record, lent memory 10.
ghost use Rattle.std.specs.Prelude.{◌≡◌, ℕ, ◌+◌, ◌*◌, ◌≤◌, ◌<◌, length, get_or};
ghost use Rattle.definition.specs.Arith.{ieee64};
ghost use Rattle.definition.specs.ChebyshevRayleighRitz.{ritz_value};
ghost use Rattle.definition.specs.Requirements.{Width};
ghost use Rattle.machine.specs.Closing.{matrix_in, round_recorded};

// The Ritz value at place p of the diagonal.
fn ritz_value(matrix: &[f64; 225], k: usize, p: usize) -> f64
    requires width { Width k }
    requires p_lt_k { p < k }
    ensures { result ≡ ritz_value ieee64 (matrix_in ieee64 k matrix.now) p }
{
    matrix[p * k + p]
}

// Writes round `round`'s places of the Ritz record: the bound that its filter used, then the Ritz values in their order.
pub fn record_round(
    k: usize,
    round: usize,
    bound: f64,
    matrix: &[f64; 225],
    order: [usize; 15],
    ritz_record: &mut [f64],
)
    requires width { Width k }
    requires by_index { (j : ℕ) → j < k → get_or order j 0 < k }
    requires k_in_bounds { round * (k + 1) + (k + 1) ≤ length ritz_record.old }
    ensures { ritz_record.new ≡ round_recorded ieee64 k round bound matrix.now order ritz_record.old }
{
    let first = round * (k + 1);
    ritz_record[first] = bound;
    for j in 0..k {
        let p = order[j];
        ritz_record[first + 1 + j] = ritz_value(matrix, k, p);
    }
}
