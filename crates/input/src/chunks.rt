// Chunk arithmetic: C is n / 4,096 rounded up. Nothing here can overflow, whatever it is given.
ghost use Rattle.std.specs.Prelude.{◌≡◌, ◌+◌};
ghost use Rattle.definition.specs.Numbers.{chunks, first_row};

use crate::SpectralParams;

pub fn chunk_count(n: usize) -> usize
    ensures { result ≡ chunks n }
{
    n.div_ceil(SpectralParams::CHUNK_ROWS)
}

// The first row of a chunk, and n past the last chunk.
pub fn first_row(n: usize, chunk: usize) -> usize
    ensures { result ≡ first_row n chunk }
{
    chunk.saturating_mul(SpectralParams::CHUNK_ROWS).min(n)
}

// The row after a chunk's last.
pub fn end_row(n: usize, chunk: usize) -> usize
    ensures { result ≡ first_row n (chunk + 1) }
{
    first_row(n, chunk.saturating_add(1))
}
