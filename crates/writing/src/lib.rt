// The writer of run files: the seven lines of a graph with its parameters, into text that a host lends.
#![tactic(auto)]

ghost use Rattle.std.specs.Prelude.{◌≡◌, length};
ghost use Rattle.input.specs.Said.{verdict_in, params_of};
ghost use Rattle.printing.specs.Items.{Puts, Room};
ghost use Rattle.printing.specs.Room.{judged_in, length_in, Leaves};
ghost use Rattle.files.specs.RunText.{test_sizes, test_file, test_run, test_write, run_text};
ghost use Rattle.writing.specs.Putting.{line_by, head_text};

use input::{Graph, Refusal, SpectralParams};
use printing::{Item, put_numbers, put_text};
use reading::{ENTRIES_MOST, ROUNDS_MOST, STARTS_MOST};

// ---- a line

// A line: its name, its numbers, a newline.
fn put_line<T: Item>(name: &[u8], numbers: &[T], out: &mut [u8], at: usize) -> usize
    requires { Room (line_by T.text name.now numbers.now) at out.old }
    ensures { Puts (line_by T.text name.now numbers.now) at out.old result out.new }
{
    let named = put_text(name, out, at);
    let next = put_numbers(numbers, out, named);
    put_text(b"\n", out, next)
}

// ---- a run file

// Lines 1 to 4, from the first byte on.
fn put_head(d: u64, params: SpectralParams, out: &mut [u8]) -> usize
    requires { Room (head_text d (params_of params)) 0 out.old }
    ensures { Puts (head_text d (params_of params)) 0 out.old result out.new }
{
    let at1 = put_line(b"d=", &[d], out, 0);
    let at2 = put_line(b"rounds=", &[params.rounds], out, at1);
    let at3 = put_line(b"degree=", &[params.degree], out, at2);
    put_line(b"seed_std=", &[params.seed_std], out, at3)
}

// The seven lines, from the first byte on.
fn put_run(d: u64, params: SpectralParams, graph: Graph<'_>, out: &mut [u8]) -> usize
    requires { Room (run_text d (params_of params) graph.starts.now graph.columns.now graph.values.now) 0 out.old }
    ensures { Puts (run_text d (params_of params) graph.entry.starts.now graph.entry.columns.now graph.entry.values.now) 0 out.old result out.new }
{
    let at4 = put_head(d, params, out);
    let at5 = put_line(b"starts=", graph.starts, out, at4);
    let at6 = put_line(b"columns=", graph.columns, out, at5);
    put_line(b"values=", graph.values, out, at6)
}

// ---- what is refused

// 17: over the program's sizes, with the first line that would hold them.
fn test_sizes(rounds: u64, graph: Graph<'_>) -> Result<(), Refusal>
    ensures { verdict_in result ≡ test_sizes rounds (length graph.entry.starts.now) (length graph.entry.columns.now) (length graph.entry.values.now) }
{
    let starts = graph.starts.len();
    let columns = graph.columns.len();
    let values = graph.values.len();
    if ROUNDS_MOST < rounds {
        return Err(Refusal::File(2));
    }
    if STARTS_MOST < starts {
        return Err(Refusal::File(5));
    }
    if ENTRIES_MOST < columns {
        return Err(Refusal::File(6));
    }
    if ENTRIES_MOST < values {
        return Err(Refusal::File(7));
    }
    Ok(())
}

// 1 to 10: the test of a file. That of the opening is another: a file can be written that no run takes.
fn test_file(d: u64, params: SpectralParams, graph: Graph<'_>) -> Result<(), Refusal>
    ensures { verdict_in result ≡ test_file d (params_of params) graph.entry.starts.now graph.entry.columns.now graph.entry.values.now }
{
    input::test_dims(d)?;
    input::test_graph(graph)?;
    input::test_params(params)
}

fn test_run(d: u64, params: SpectralParams, graph: Graph<'_>) -> Result<(), Refusal>
    ensures { verdict_in result ≡ test_run d (params_of params) graph.entry.starts.now graph.entry.columns.now graph.entry.values.now }
{
    test_sizes(params.rounds, graph)?;
    test_file(d, params, graph)
}

// So many bytes hold every run file. The `ensures` gives only the length, so that no proof counts so many zeros.
fn blank() -> [u8; 32768]
    ensures { 32768 ≡ length result }
{
    [0; 32768]
}

// The run file of a graph with its parameters, and its length. It is made in memory of its own and then copied whole, so that a refused call has changed no byte.
pub fn write_run(
    d: u64,
    params: SpectralParams,
    graph: Graph<'_>,
    out: &mut [u8],
) -> Result<usize, Refusal>
    ensures { Leaves (test_write d (params_of params) graph.entry.starts.now graph.entry.columns.now graph.entry.values.now out.old)
        (run_text d (params_of params) graph.entry.starts.now graph.entry.columns.now graph.entry.values.now) out.old (judged_in result) (length_in result) out.new }
{
    test_run(d, params, graph)?;
    let mut text = blank();
    let end = put_run(d, params, graph, &mut text);
    printing::deliver(&text[..end], out)
}
