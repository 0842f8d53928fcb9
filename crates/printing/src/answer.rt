// What the text program prints, into text that a host lends: all of it, or a refusal and nothing. Asks for nothing.
ghost use Rattle.std.specs.Prelude.{◌≡◌, ◌≤◌, length};
ghost use Rattle.digits.specs.Placed.{put};
ghost use Rattle.input.specs.Said.{verdict_of, verdict_in};
ghost use Rattle.state.specs.Said.{counts_in};
ghost use Rattle.printing.specs.Printed.{room};
ghost use Rattle.printing.specs.Room.{judged_in, length_in, Leaves};
ghost use Rattle.printing.specs.Answer.{test_seed, test_printed, test_answer, answer_text};

use crate::room::deliver;
use crate::{print_refusal, print_seed};
use input::{Refusal, Verdict};
use state::Counts;

// The program's rows.
const ROWS_MOST: usize = 64;

// 1, 2, 17 and 11: what is asked of a seed that is printed.
fn test_seed(d: u64, n: usize, numbers: usize) -> Result<(), Refusal>
    ensures { verdict_in result ≡ test_seed d n numbers }
{
    input::test_dims(d)?;
    if n == 0 {
        return Err(Refusal::Rows);
    }
    if ROWS_MOST < n {
        return Err(Refusal::File(0));
    }
    if numbers < n * d as usize {
        return Err(Refusal::Memory(9));
    }
    Ok(())
}

// A refusal is printed whatever D, n and the seed are. Here and below it is a `Verdict`, as C hands any number and place to be printed
// (`threshcinch_write_answer`), more than a `Refusal` names.
#[tactic(auto, using(crate::proofs::Answers::printed_laws))]
fn test_printed(asked: Verdict, d: u64, n: usize, numbers: usize) -> Result<(), Refusal>
    ensures { verdict_in result ≡ test_printed (verdict_of asked) d n numbers }
{
    if asked.number != 0 {
        return Ok(());
    }
    test_seed(d, n, numbers)
}

// The refusal or the seed, from the first byte on; the place behind it.
fn print_answer(
    verdict: Verdict,
    d: u64,
    n: usize,
    counts: Counts,
    seed: &[f64],
    out: &mut [u8],
) -> usize
    requires { ((test_printed (verdict_of verdict) d n (length seed.now)).number ≡ 0) × (room ≤ length out.old) }
    ensures { (result ≡ length (answer_text (verdict_of verdict) d n (counts_in counts) seed.now)) × (result ≤ room)
        × (out.new ≡ put (answer_text (verdict_of verdict) d n (counts_in counts) seed.now) 0 out.old) }
{
    if verdict.number != 0 {
        return print_refusal(verdict.number, verdict.place, out);
    }
    print_seed(n, d as usize, counts, seed, out)
}

// What the text program prints: the refusal, or the counts and the seed of n rows, where row i has its d numbers from i x d on. Its length.
pub fn write_answer(
    verdict: Verdict,
    d: u64,
    n: usize,
    counts: Counts,
    seed: &[f64],
    out: &mut [u8],
) -> Result<usize, Refusal>
    ensures { Leaves (test_answer (verdict_of verdict) d n (counts_in counts) seed.now out.old)
        (answer_text (verdict_of verdict) d n (counts_in counts) seed.now) out.old (judged_in result) (length_in result) out.new }
{
    test_printed(verdict, d, n, seed.len())?;
    let mut text = [0u8; 8192];
    let end = print_answer(verdict, d, n, counts, seed, &mut text);
    deliver(&text[..end], out)
}
