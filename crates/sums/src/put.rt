// The sums, copied to their place among the partials.
ghost use Rattle.std.specs.Prelude.{◌≡◌, ◌+◌, ◌-◌, ◌≤◌, length};
ghost use Rattle.definition.specs.Arith.{ieee64};
ghost use Rattle.definition.specs.Memory.{vector_of, fill_range};

// The first `width` sums, from `base` on.
pub fn put_partial(base: usize, width: usize, sums: &[f64; 225], partials: &mut [f64])
    requires { (width ≤ 225) × (base + width ≤ length partials.old) }
    ensures { partials.new ≡ fill_range base (base + width) (λ p. vector_of ieee64.none sums.now (p - base)) partials.old }
{
    partials[base..base + width].copy_from_slice(&sums[..width]);
}
