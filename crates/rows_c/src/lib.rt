// What programs in other languages link of rows, under its C name: a caller shows the `requires`, which nothing tests.
#![tactic(auto)]

ghost use Rattle.std.specs.Prelude.{◌≡◌, ◌*◌, ◌≤◌, length};
ghost use Rattle.definition.specs.Arith.{ieee64};
ghost use Rattle.definition.specs.Memory.{fill_range, place};
ghost use Rattle.rows.specs.Pass.{combined_at, multipliers, operator_of, Pass};

use numbers::{Multipliers, Rows};
use rows::Operator;

#[unsafe(no_mangle)]
pub extern "C" fn rows_matvec_combine(
    n: usize,
    k: usize,
    mul_mv: f64,
    mul_v: f64,
    mul_prev: f64,
    first: usize,
    end: usize,
    starts: &[u64],
    edge_columns: &[u32],
    edge_weights: &[f64],
    inverse: &[f64],
    v: &[f64],
    prev: &[f64],
    out: &mut [f64],
)
    requires pass { Pass n k first end starts.now edge_columns.now edge_weights.now inverse.now v.now prev.now }
    requires k_in_bounds { n * k ≤ length out.old }
    ensures { out.new ≡ fill_range (place n k first 0) (place n k end 0)
        (combined_at ieee64 n k (operator_of ieee64 starts.now edge_columns.now edge_weights.now inverse.now)
        (multipliers ieee64 mul_mv mul_v mul_prev) v.now prev.now)
        out.old }
{
    let own = Rows {
        n,
        width: k,
        first,
        end,
    };
    let by = Multipliers {
        of_mv: mul_mv,
        of_v: mul_v,
        of_prev: mul_prev,
    };
    let op = Operator {
        starts,
        columns: edge_columns,
        weights: edge_weights,
        inverse,
    };
    rows::matvec_combine(own, by, op, v, prev, out);
}
