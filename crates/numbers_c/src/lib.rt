// What C and Rust link of numbers: the root and the start numbers, under their C names.
#![tactic(auto)]

ghost use Rattle.std.specs.Prelude.{◌≡◌};
ghost use Rattle.std.specs.Float.{binary64};
ghost use Rattle.definition.specs.Root.{root_of};
ghost use Rattle.definition.specs.SplitmixUnit.{splitmix_unit};

use numbers::{root, splitmix_unit};

#[unsafe(no_mangle)]
pub extern "C" fn numbers_root(x: f64) -> f64
    ensures { result ≡ root_of binary64 x }
{
    root(x)
}

#[unsafe(no_mangle)]
pub extern "C" fn numbers_splitmix_unit(index: u64) -> f64
    ensures { result ≡ splitmix_unit index }
{
    splitmix_unit(index)
}
