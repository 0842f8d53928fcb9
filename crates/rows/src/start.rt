// The start block.
ghost use Rattle.std.specs.Prelude.{◌≡◌, ◌+◌, ◌*◌, ◌^◌, ◌≤◌, ◌<◌, length};
ghost use Rattle.definition.specs.Arith.{ieee64};
ghost use Rattle.definition.specs.ChebyshevRayleighRitz.{start_block};
ghost use Rattle.definition.specs.Memory.{fill_range, number_at, place};
ghost use Rattle.definition.specs.Requirements.{Span};

use numbers::Rows;

// The numbers of the indices from `from` on, as many as the part has. By index: the index is what is hashed.
fn start_block_rows(from: usize, rows: &mut [f64])
    requires { from + length rows.old < 2 ^ 64 }
    ensures { rows.new ≡ fill_range 0 (length rows.old) (λ p. ieee64.start (from + p)) rows.old }
{
    for p in 0..rows.len() {
        rows[p] = numbers::splitmix_unit((from + p) as u64);
    }
}

// The chunk's rows of the block.
pub fn start_block_chunk(own: Rows, block: &mut [f64])
    requires span { Span own.first own.end own.n }
    requires k_in_bounds { own.n * own.width ≤ length block.old }
    ensures { let n = own.n in let k = own.width in block.new ≡ fill_range (place n k own.first 0) (place n k own.end 0)
        (number_at n k (start_block ieee64 k)) block.old }
{
    let a = own.first * own.width;
    let e = own.end * own.width;
    start_block_rows(a, &mut block[a..e]);
}
