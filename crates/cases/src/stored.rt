// What a stored answer says. One of another form is read as something else, and so is not printed again as it was.
use crate::lent::ACCEPTED;
use digits::Number;
use input::Verdict;
use state::Counts;

// 64 rows of 7.
const NUMBERS_MOST: usize = 448;

// What the second writer is asked. With a refusal all else is zero; row i of the n rows has its d numbers from i x d on.
// The numbers are the first of `room`: fixed memory, as everywhere in this project, and what a longer seed has behind them.
#[derive(Clone, Copy)]
pub struct Said {
    pub verdict: Verdict,
    pub d: u64,
    pub n: usize,
    pub counts: Counts,
    pub numbers: usize,
    pub room: [f64; 448],
}

impl Said {
    // A refusal, and all else zero.
    pub fn refused(verdict: Verdict) -> Self {
        Said {
            verdict,
            d: 0,
            n: 0,
            counts: Counts {
                passes: 0,
                refreshed: 0,
                zeroed: 0,
                isolated: 0,
            },
            numbers: 0,
            room: [0.0; 448],
        }
    }

    // What a stored answer says. A number that it lacks is 0.
    pub fn read(text: &[u8]) -> Self {
        let mut left = Left(text);
        let number = left.labelled();
        let second = left.labelled(); // the place of a refusal, or n
        if number != 0 {
            return Said::refused(Verdict {
                number,
                place: second,
            });
        }
        let n = second as usize;
        let counts = Counts {
            passes: left.labelled() as usize,
            refreshed: left.labelled() as usize,
            zeroed: left.labelled() as usize,
            isolated: left.labelled() as usize,
        };
        let mut room = [0.0; 448];
        let numbers = left.read_seed(&mut room);
        Said {
            verdict: ACCEPTED,
            d: numbers.checked_div(n).unwrap_or(0) as u64,
            n,
            counts,
            numbers,
            room,
        }
    }

    pub fn seed(&self) -> &[f64] {
        self.room.get(..self.numbers).unwrap_or(&self.room)
    }

    // The same with a seed that has numbers behind its own.
    pub fn longer(self) -> Self {
        Said {
            numbers: NUMBERS_MOST,
            ..self
        }
    }
}

// ---- reading

// What is left to read of a stored answer.
#[derive(Drop)]
struct Left<'a>(&'a [u8]);

impl Left<'_> {
    // The decimal behind the next `=`; none, and nothing is read, where there is no such.
    fn next_decimal(&mut self) -> Option<u64> {
        let sign = self.0.iter().position(|b| *b == b'=')?;
        let Number { value, next } = digits::read_decimal(self.0, sign + 1, u64::MAX)?;
        self.0 = self.0.get(next..)?;
        Some(value)
    }

    fn labelled(&mut self) -> u64 {
        self.next_decimal().unwrap_or(0)
    }

    // The pattern behind a comma, or behind the newline and the name of a row.
    fn next_bits(&mut self) -> Option<u64> {
        let from = if self.0.first() == Some(&b',') { 1 } else { 5 };
        let Number { value, next } = digits::read_hex(self.0, from)?;
        self.0 = self.0.get(next..)?;
        Some(value)
    }

    // The numbers of all rows; how many they are.
    fn read_seed(&mut self, seed: &mut [f64]) -> usize {
        for i in 0..seed.len() {
            let Some(bits) = self.next_bits() else {
                return i;
            };
            seed[i] = reading::value_of(bits);
        }
        seed.len()
    }
}
