// What a filter pass multiplies by.
ghost use Rattle.std.specs.Prelude.{◌≡◌};
ghost use Rattle.definition.specs.Arith.{ieee64};
ghost use Rattle.machine.specs.Work.{filter_multipliers};
ghost use Rattle.numbers.specs.Answers.{multipliers_of};
ghost use Rattle.state.specs.Said.{progress_in};

use numbers::Multipliers;
use state::Progress;

// The first pass of a round, or a later one.
pub fn filter_by(progress: Progress) -> Multipliers
    ensures { multipliers_of result ≡ filter_multipliers ieee64 (progress_in progress) }
{
    let pass = progress.pass;
    let bound = progress.bound;
    let alpha = progress.alpha;
    if pass == 0 {
        return numbers::first_multipliers(bound, alpha);
    }
    let following = numbers::next_alpha(bound, alpha);
    numbers::later_multipliers(bound, alpha, following)
}
