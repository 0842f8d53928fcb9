// What programs in other languages link of sums, under their C names. Both have a `requires`: they are for benchmarks, whose driver shows it.
#![tactic(auto)]

ghost use Rattle.std.specs.Prelude.{◌≡◌, ◌+◌, ◌*◌, ◌≤◌, ◌<◌, length};
ghost use Rattle.definition.specs.Arith.{ieee64};
ghost use Rattle.definition.specs.OrthonormalizeBlock.{dot_term};
ghost use Rattle.definition.specs.Memory.{vector_of, block_of};
ghost use Rattle.definition.specs.Requirements.{Span, Width};
ghost use Rattle.sums.specs.Accumulators.{with_partial, product_term};

use numbers::Rows;

#[unsafe(no_mangle)]
pub extern "C" fn sums_dots_partial(
    n: usize,
    k: usize,
    c: usize,
    first: usize,
    end: usize,
    v0: &[f64],
    v: &[f64],
    base: usize,
    partials: &mut [f64],
)
    requires span { Span first end n }
    requires width { Width k }
    requires c_lt_k { (c < k) × (n ≤ length v0.now) × (n * k ≤ length v.now) × (base + (c + 1) ≤ length partials.old) }
    ensures { partials.new ≡ with_partial ieee64 base (c + 1)
        (dot_term ieee64 (vector_of ieee64.none v0.now) (block_of ieee64.none n k v.now) c) first end partials.old }
{
    let own = Rows {
        n,
        width: k,
        first,
        end,
    };
    sums::dots_partial(own, c, v0, v, base, partials);
}

#[unsafe(no_mangle)]
pub extern "C" fn sums_products_partial(
    n: usize,
    k: usize,
    first: usize,
    end: usize,
    v: &[f64],
    w: &[f64],
    base: usize,
    partials: &mut [f64],
)
    requires span { Span first end n }
    requires width { Width k }
    requires k_in_bounds { (n * k ≤ length v.now) × (n * k ≤ length w.now) × (base + k * k ≤ length partials.old) }
    ensures { partials.new ≡ with_partial ieee64 base (k * k)
        (product_term ieee64 k (block_of ieee64.none n k v.now) (block_of ieee64.none n k w.now)) first end partials.old }
{
    let own = Rows {
        n,
        width: k,
        first,
        end,
    };
    sums::products_partial(own, v, w, base, partials);
}
