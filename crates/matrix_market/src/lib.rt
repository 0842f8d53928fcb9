// The reader of Matrix Market files: the text is tested whole before a lent number is written.
#![tactic(auto)]

ghost use Rattle.std.specs.Prelude.{◌≡◌, true, [], ℕ, ◌+◌, ◌*◌, ◌≤◌, min, length};
ghost use Rattle.definition.specs.Memory.{fill_range};
ghost use Rattle.definition.specs.Numbers.{rows_most, entries_most};
ghost use Rattle.input.specs.Said.{verdict_in};
ghost use Rattle.lines.specs.Lines.{lines_of};
ghost use Rattle.lines.specs.Kinds.{kinds_at};
ghost use Rattle.market.specs.Market.{market, read_market, head_of, body};
ghost use Rattle.market.specs.Graph.{one, placed_of};
ghost use Rattle.market.specs.Passes.{repeat_from};
ghost use Rattle.scanning.specs.Said.{Place};
ghost use Rattle.matrix_market.specs.Outcome.{outcome_of, room_of, room_for, test_limits, test_room};
ghost use Rattle.matrix_market.specs.Said.{outcome_in, room_in, entries_at, Tests, Counted, Ready, Placed};

use input::{Refusal, SpectralParams};

// The rows, and the entries as placed, of a graph that was read.
#[derive(Clone, Copy)]
pub struct Size {
    pub rows: usize,
    pub entries: usize,
}

// How long the lists must at most be for a file: starts, and columns and values each.
#[derive(Clone, Copy)]
pub struct Lengths {
    pub starts: usize,
    pub entries: usize,
}

// Rows, the place behind the size line, the entries and those of them off the diagonal.
#[derive(Drop)]
struct Tested {
    n: u64,
    at: usize,
    entries: usize,
    doubles: usize,
}

// ---- the text

// Entries that rise strictly do not repeat, so that most files take one pass.
fn repeat_line(text: &[u8], from: usize, first: u64, limit: u64, rising: bool) -> u64
    requires { Place text.now from first × (rising ≡ true → repeat_from [] first limit (kinds_at text.now from) ≡ limit) }
    ensures { result ≡ repeat_from [] first limit (kinds_at text.now from) }
{
    if rising {
        return limit;
    }
    repeated::first_repeat(text, from, first, limit)
}

// What stands behind the size line; or the line at fault.
#[tactic(auto, using(crate::proofs::Bodies::tested_again, crate::proofs::Bodies::tested_wrong))]
fn test_body(text: &[u8], from: usize, first: u64, n: u64, m: u64) -> Result<Tested, u64>
    requires { Place text.now from first }
    ensures { Tests (body n m [] first (kinds_at text.now from)) text.now result }
{
    let scanned = scanning::scan(text, from, first, n, m);
    let limit = scanned.line;
    let again = repeat_line(text, from, first, limit, scanned.rising);
    if again < limit {
        return Err(again);
    }
    if !scanned.is_right {
        return Err(limit);
    }
    Ok(Tested {
        n,
        at: from,
        entries: scanned.entries,
        doubles: scanned.doubles,
    })
}

// Which file the text is, or the first line at fault.
fn test_text(text: &[u8]) -> Result<Tested, u64>
    ensures { Tests (read_market text.now) text.now result }
{
    let head = scanning::read_head(text)?;
    test_body(text, head.at, head.line, head.n, head.m)
}

// ---- the sizes

// 2 for no rows, 3 for too many of either. The entries as placed are summed where that cannot overflow.
fn test_limits(n: usize, entries: usize, doubles: usize) -> Result<(), Refusal>
    requires { doubles ≤ entries }
    ensures { verdict_in result ≡ test_limits n (entries + doubles) }
{
    if n == 0 {
        return Err(Refusal::Rows);
    }
    if SpectralParams::ROWS_MOST < n {
        return Err(Refusal::Limits);
    }
    if SpectralParams::ENTRIES_MOST < entries {
        return Err(Refusal::Limits);
    }
    if SpectralParams::ENTRIES_MOST < entries + doubles {
        return Err(Refusal::Limits);
    }
    Ok(())
}

// 11 with the first list that is too short.
fn test_room(
    n: usize,
    placed: usize,
    starts: usize,
    columns: usize,
    values: usize,
) -> Result<(), Refusal>
    requires { n ≤ rows_most }
    ensures { verdict_in result ≡ test_room n placed starts columns values }
{
    if starts < n + 1 {
        return Err(Refusal::Memory(0));
    }
    if columns < placed {
        return Err(Refusal::Memory(1));
    }
    if values < placed {
        return Err(Refusal::Memory(2));
    }
    Ok(())
}

// ---- the graph

// The first `count` numbers 1.0.
fn fill_ones(count: usize, values: &mut [f64])
    requires { count ≤ length values.old }
    ensures { values.new ≡ fill_range 0 count (λ p. one) values.old }
{
    values[..count].fill(1.0);
}

// The entries behind `from` as a graph.
fn place_graph(
    text: &[u8],
    from: usize,
    n: usize,
    placed: usize,
    starts: &mut [u64],
    columns: &mut [u32],
    values: &mut [f64],
)
    requires { Ready text.now n from (length starts.old) (length columns.old) (length values.old) × (placed ≡ placed_of n (entries_at text.now from)) }
    ensures { Placed n (entries_at text.now from) starts.old columns.old values.old
        starts.new columns.new values.new }
{
    placing::count_starts(text, from, n, starts);
    placing::scatter(text, from, n, starts, columns);
    ascending::sort_rows(n, &starts[..], columns);
    fill_ones(placed, values);
}

// A right text: its sizes are tested, and then it is placed.
fn read_right(
    text: &[u8],
    from: usize,
    n: usize,
    entries: usize,
    doubles: usize,
    starts: &mut [u64],
    columns: &mut [u32],
    values: &mut [f64],
) -> Result<Size, Refusal>
    requires { Counted text.now n from entries doubles }
    ensures { outcome_in result starts.new columns.new values.new
        ≡ outcome_of (market n (entries_at text.now from)) starts.old columns.old values.old }
{
    test_limits(n, entries, doubles)?;
    let placed = entries + doubles;
    test_room(n, placed, starts.len(), columns.len(), values.len())?;
    place_graph(text, from, n, placed, starts, columns, values);
    Ok(Size {
        rows: n,
        entries: placed,
    })
}

// The graph of a Matrix Market file (coordinate, pattern, symmetric), in front of the lent lists. With a refusal every lent number stays.
pub fn read_matrix_market(
    text: &[u8],
    starts: &mut [u64],
    columns: &mut [u32],
    values: &mut [f64],
) -> Result<Size, Refusal>
    ensures { outcome_in result starts.new columns.new values.new
        ≡ outcome_of (read_market text.now) starts.old columns.old values.old }
{
    match test_text(text) {
        Ok(t) => read_right(
            text,
            t.at,
            t.n as usize,
            t.entries,
            t.doubles,
            starts,
            columns,
            values,
        ),
        Err(line) => Err(Refusal::Market(line)),
    }
}

// ---- before a host takes memory

// Twice a number, or the most that a graph may have.
fn doubled(entries: usize) -> usize
    requires { entries ≤ entries_most }
    ensures { result ≡ min (2 * entries) entries_most }
{
    if SpectralParams::ENTRIES_MOST < 2 * entries {
        return SpectralParams::ENTRIES_MOST;
    }
    2 * entries
}

fn sizes_of(n: usize, m: usize) -> Result<Lengths, Refusal>
    ensures { room_in result ≡ room_for n m }
{
    test_limits(n, m, 0)?;
    Ok(Lengths {
        starts: n + 1,
        entries: doubled(m),
    })
}

// How much room suffices, by the size line; nothing behind it is read.
pub fn matrix_market_sizes(text: &[u8]) -> Result<Lengths, Refusal>
    ensures { room_in result ≡ room_of (head_of (lines_of text.now)) }
{
    match scanning::read_head(text) {
        Ok(head) => sizes_of(head.n as usize, head.m as usize),
        Err(line) => Err(Refusal::Market(line)),
    }
}
