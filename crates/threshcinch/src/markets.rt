// Matrix Market files: the reader, and how much memory it wants.
ghost use Rattle.std.specs.Prelude.{◌≡◌};
ghost use Rattle.lines.specs.Lines.{lines_of};
ghost use Rattle.market.specs.Market.{head_of, read_market};
ghost use Rattle.matrix_market.specs.Outcome.{outcome_of, room_of};
ghost use Rattle.threshcinch.specs.Markets.{read_told, sizes_told, outcome_in, room_in};

use input::{Refusal, Verdict};
use matrix_market::{Lengths, Size};

// A refusal, or none, with the rows and the entries as placed; zeros with a refusal.
#[repr(C)]
#[derive(Drop)]
pub struct MarketRead {
    pub verdict: Verdict,
    pub rows: usize,
    pub entries: usize,
}

// How long the lists must at most be for a file: starts, and columns and values each; zeros with a refusal.
#[repr(C)]
#[derive(Drop)]
pub struct MarketSizes {
    pub verdict: Verdict,
    pub starts: usize,
    pub entries: usize,
}

// Two of these, since C has a record for each answer, with names of its own for what both hold.
impl From<Result<Size, Refusal>> for MarketRead {
    ghost from_gives = { λ found read. read ≡ read_told found };

    fn from(found: Result<Size, Refusal>) -> MarketRead {
        match found {
            Ok(size) => MarketRead {
                verdict: Verdict {
                    number: 0,
                    place: 0,
                },
                rows: size.rows,
                entries: size.entries,
            },
            Err(refusal) => MarketRead {
                verdict: Verdict {
                    number: refusal.number(),
                    place: refusal.place(),
                },
                rows: 0,
                entries: 0,
            },
        }
    }
}

impl From<Result<Lengths, Refusal>> for MarketSizes {
    ghost from_gives = { λ found sizes. sizes ≡ sizes_told found };

    fn from(found: Result<Lengths, Refusal>) -> MarketSizes {
        match found {
            Ok(lengths) => MarketSizes {
                verdict: Verdict {
                    number: 0,
                    place: 0,
                },
                starts: lengths.starts,
                entries: lengths.entries,
            },
            Err(refusal) => MarketSizes {
                verdict: Verdict {
                    number: refusal.number(),
                    place: refusal.place(),
                },
                starts: 0,
                entries: 0,
            },
        }
    }
}

#[unsafe(no_mangle)]
pub extern "C" fn threshcinch_read_matrix_market(
    text: &[u8],
    starts: &mut [u64],
    columns: &mut [u32],
    values: &mut [f64],
) -> MarketRead
    ensures { outcome_in result starts.new columns.new values.new
        ≡ outcome_of (read_market text.now) starts.old columns.old values.old }
{
    MarketRead::from(matrix_market::read_matrix_market(text, starts, columns, values))
}

#[unsafe(no_mangle)]
pub extern "C" fn threshcinch_matrix_market_sizes(text: &[u8]) -> MarketSizes
    ensures { room_in result ≡ room_of (head_of (lines_of text.now)) }
{
    MarketSizes::from(matrix_market::matrix_market_sizes(text))
}
