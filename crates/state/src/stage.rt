// The stages of a held run. A state that a host stores has its stage as a number, in the order of the enum here.
ghost use Rattle.std.specs.Prelude.{◌≡◌};
ghost use Rattle.state.specs.Stages.{number_of, StageAt};

// In document 01's order, between "no run yet" and "the run has ended".
#[derive(Clone, Copy, PartialEq, Eq, Debug)]
pub enum Stage {
    Empty,
    Degrees,
    Edges,
    V0,
    StartBlock,
    FilterPass,
    NormBefore,
    FirstDots,
    FirstSubtract,
    SecondDots,
    SecondSubtract,
    NormAfter,
    Write,
    PlainPass,
    Products,
    Rotate,
    Sums,
    Centre,
    Squares,
    Scale,
    Ended,
}

// The stage of a number. Past the last one the run has ended too, as in the machine.
impl From<usize> for Stage {
    ghost from_gives = { StageAt };

    fn from(number: usize) -> Stage {
        match number {
            0 => Stage::Empty,
            1 => Stage::Degrees,
            2 => Stage::Edges,
            3 => Stage::V0,
            4 => Stage::StartBlock,
            5 => Stage::FilterPass,
            6 => Stage::NormBefore,
            7 => Stage::FirstDots,
            8 => Stage::FirstSubtract,
            9 => Stage::SecondDots,
            10 => Stage::SecondSubtract,
            11 => Stage::NormAfter,
            12 => Stage::Write,
            13 => Stage::PlainPass,
            14 => Stage::Products,
            15 => Stage::Rotate,
            16 => Stage::Sums,
            17 => Stage::Centre,
            18 => Stage::Squares,
            19 => Stage::Scale,
            _ => Stage::Ended,
        }
    }
}

impl Stage {
    // The number by which a state keeps the stage.
    pub fn number(self) -> usize
        ensures { result ≡ number_of self }
    {
        self as usize
    }
}
