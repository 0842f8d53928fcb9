// The test of a request: refusals 1 to 11, in document 01's order.
ghost use Rattle.std.specs.Prelude.{◌≡◌, ◌-◌, cond, length, get_or};
ghost use Rattle.definition.specs.Arith.{ieee64};
ghost use Rattle.definition.specs.Memory.{wholes_of};
ghost use Rattle.definition.specs.Numbers.{lent_sizes};
ghost use Rattle.definition.specs.Refusals as refusals;
ghost use Rattle.input.specs.Said.{refusal_of, verdict_in, params_of, Allowed};

use crate::chunks::chunk_count;
use crate::scan::{is_finite, test_columns, test_enough, test_rising, test_values};
use crate::{Graph, Refusal, SpectralParams};

// ---- what the tests are made of

fn refuse_if(fault: bool, refusal: Refusal) -> Result<(), Refusal>
    ensures { verdict_in result ≡ cond fault (refusal_of refusal) refusals.accepted }
{
    if fault { Err(refusal) } else { Ok(()) }
}

// From 1 to a limit.
pub fn within(x: u64, most: u64) -> bool
    ensures { result ≡ refusals.within x most }
{
    (1..=most).contains(&x)
}

// n: one less than the starts.
pub fn row_count(starts: &[u64]) -> usize
    ensures { result ≡ length starts.now - 1 }
{
    starts.len().saturating_sub(1)
}

fn start_at(starts: &[u64], i: usize) -> u64
    ensures { result ≡ get_or starts.now i 0 }
{
    if i < starts.len() { starts[i] } else { 0 }
}

// ---- the tests

pub fn test_dims(d: u64) -> Result<(), Refusal>
    ensures { verdict_in result ≡ refusals.test_dims d }
{
    refuse_if(!within(d, SpectralParams::DIMS_MOST), Refusal::Dims)
}

fn test_rows(starts: &[u64]) -> Result<(), Refusal>
    ensures { verdict_in result ≡ refusals.test_rows starts.now }
{
    refuse_if(starts.len() < 2, Refusal::Rows)
}

fn test_limits(graph: Graph<'_>) -> Result<(), Refusal>
    ensures { verdict_in result ≡ refusals.test_limits graph.entry.starts.now graph.entry.columns.now }
{
    let n = row_count(graph.starts);
    refuse_if(
        SpectralParams::ROWS_MOST < n || SpectralParams::ENTRIES_MOST < graph.columns.len(),
        Refusal::Limits,
    )
}

fn test_lengths(graph: Graph<'_>) -> Result<(), Refusal>
    ensures { verdict_in result ≡ refusals.test_lengths (length graph.entry.columns.now) (length graph.entry.values.now) }
{
    refuse_if(graph.columns.len() != graph.values.len(), Refusal::Lengths)
}

fn test_starts(graph: Graph<'_>) -> Result<(), Refusal>
    ensures { verdict_in result ≡ refusals.test_starts graph.entry.starts.now graph.entry.columns.now }
{
    let starts = graph.starts;
    let n = row_count(starts);
    refuse_if(start_at(starts, 0) != 0, Refusal::Starts(0))?;
    test_rising(starts)?;
    refuse_if(
        start_at(starts, n) != graph.columns.len() as u64,
        Refusal::Starts(n),
    )
}

pub fn test_rounds(rounds: u64) -> Result<(), Refusal>
    ensures { verdict_in result ≡ refusals.test_rounds rounds }
{
    refuse_if(
        !within(rounds, SpectralParams::ROUNDS_MOST),
        Refusal::Rounds,
    )
}

pub fn test_degree(degree: u64) -> Result<(), Refusal>
    ensures { verdict_in result ≡ refusals.test_degree degree }
{
    refuse_if(
        !within(degree, SpectralParams::DEGREE_MOST),
        Refusal::Degree,
    )
}

pub fn test_seed_std(s: f64) -> Result<(), Refusal>
    ensures { verdict_in result ≡ refusals.test_seed_std s }
{
    refuse_if(!(0.0 < s && is_finite(s)), Refusal::SeedStd)
}

// How long each lent memory must be.
pub fn lent_sizes(d: usize, rounds: usize, n: usize, m: usize) -> [usize; 11]
    requires { Allowed d rounds n m }
    ensures { result ≡ lent_sizes d rounds n m }
{
    let k = d + SpectralParams::OVERSAMPLING;
    let chunks = chunk_count(n);
    let block = n * k;
    let partials = chunks * k * k;
    let output = n * d;
    let ritz_record = rounds * (k + 1);
    [
        n,
        n,
        m,
        m,
        block,
        block,
        block,
        partials,
        chunks,
        output,
        ritz_record,
    ]
}

pub fn test_lent(
    d: usize,
    rounds: usize,
    n: usize,
    m: usize,
    lent: [usize; 11],
) -> Result<(), Refusal>
    requires { Allowed d rounds n m }
    ensures { verdict_in result ≡ refusals.test_lent d rounds n m (wholes_of lent) }
{
    test_enough(lent, lent_sizes(d, rounds, n, m))
}

pub fn test_params(params: SpectralParams) -> Result<(), Refusal>
    ensures { verdict_in result ≡ refusals.test_params (params_of params) }
{
    test_rounds(params.rounds)?;
    test_degree(params.degree)?;
    test_seed_std(params.seed_std)
}

pub fn test_graph(graph: Graph<'_>) -> Result<(), Refusal>
    ensures { verdict_in result ≡ refusals.test_graph ieee64 graph.entry.starts.now graph.entry.columns.now graph.entry.values.now }
{
    test_rows(graph.starts)?;
    test_limits(graph)?;
    test_lengths(graph)?;
    test_starts(graph)?;
    test_columns(row_count(graph.starts), graph.columns)?;
    test_values(graph.values)
}

// What opening and the one call test; lent has the lengths of the lent memory, 0 to 10.
pub fn test_request(
    d: u64,
    params: SpectralParams,
    graph: Graph<'_>,
    lent: [usize; 11],
) -> Result<(), Refusal>
    ensures { verdict_in result ≡ refusals.test_request ieee64 d (params_of params) graph.entry.starts.now graph.entry.columns.now graph.entry.values.now (wholes_of lent) }
{
    test_dims(d)?;
    test_graph(graph)?;
    test_params(params)?;
    test_lent(
        d as usize,
        params.rounds as usize,
        row_count(graph.starts),
        graph.columns.len(),
        lent,
    )
}
