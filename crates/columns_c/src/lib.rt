// What the benchmark links of columns, under its C name; its driver shows what is required.
#![tactic(auto)]

ghost use Rattle.std.specs.Prelude.{◌≡◌, ◌≤◌, length};
ghost use Rattle.std.specs.Float.{nan};
ghost use Rattle.definition.specs.Arith.{ieee64};
ghost use Rattle.definition.specs.Memory.{place, vector_of, block_of, number_at, fill_range};
ghost use Rattle.definition.specs.OrthonormalizeBlock.{subtracted};
ghost use Rattle.columns.specs.Rows.{Within};

use numbers::Rows;

#[unsafe(no_mangle)]
pub extern "C" fn columns_subtract_chunk(
    n: usize,
    k: usize,
    c: usize,
    dots: &[f64; 225],
    first: usize,
    end: usize,
    v0: &[f64],
    block: &mut [f64],
)
    requires within { Within n k c first end block.old }
    requires n_in_bounds { n ≤ length v0.now }
    ensures { block.new ≡ fill_range (place n k first 0) (place n k end 0)
        (number_at n k (subtracted ieee64 (vector_of nan dots.now) (vector_of nan v0.now) (block_of nan n k block.old) c))
        block.old }
{
    let own = Rows {
        n,
        width: k,
        first,
        end,
    };
    columns::subtract_chunk(own, c, dots, v0, block);
}
