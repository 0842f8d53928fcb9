// One pass over a list each: the first fault is refused.
ghost use Rattle.std.specs.Prelude.{◌≡◌, ◌-◌, length};
ghost use Rattle.definition.specs.Arith.{ieee64, is_finite};
ghost use Rattle.definition.specs.Memory.{wholes_of};
ghost use Rattle.definition.specs.Refusals as refusals;
ghost use Rattle.definition.specs.Refusals.{given_first, falls};
ghost use Rattle.input.specs.Said.{verdict_in, short};

use crate::Refusal;

// Neither NaN nor infinite: between the infinities, as the definition says it.
pub fn is_finite(x: f64) -> bool
    ensures { result ≡ is_finite x }
{
    -1.0 / 0.0 < x && x < 1.0 / 0.0
}

// No start is below the one before it.
pub fn test_rising(starts: &[u64]) -> Result<(), Refusal>
    ensures { verdict_in result ≡ given_first (falls starts.now) 1 (length starts.now - 1) 5 }
{
    for i in 1..starts.len() {
        if starts[i] < starts[i - 1] {
            return Err(Refusal::Starts(i));
        }
    }
    Ok(())
}

pub fn test_columns(n: usize, columns: &[u32]) -> Result<(), Refusal>
    ensures { verdict_in result ≡ refusals.test_columns n columns.now }
{
    for e in 0..columns.len() {
        let column = columns[e] as usize;
        if n <= column {
            return Err(Refusal::Column(e));
        }
    }
    Ok(())
}

pub fn test_values(values: &[f64]) -> Result<(), Refusal>
    ensures { verdict_in result ≡ refusals.test_values ieee64 values.now }
{
    for e in 0..values.len() {
        if !is_finite(values[e]) {
            return Err(Refusal::Value(e));
        }
    }
    Ok(())
}

// No lent memory is shorter than its size.
pub fn test_enough(lent: [usize; 11], sizes: [usize; 11]) -> Result<(), Refusal>
    ensures { verdict_in result ≡ given_first (short (wholes_of lent) (wholes_of sizes)) 0 11 11 }
{
    for j in 0..11 {
        if lent[j] < sizes[j] {
            return Err(Refusal::Memory(j));
        }
    }
    Ok(())
}
