// The text program's work, on bytes: a run file in, the seed with its counts out, or a refusal.
#![tactic(auto)]

ghost use Rattle.std.specs.Prelude.{◌≡◌, ◌≤◌, length, take};
ghost use Rattle.digits.specs.Placed.{put};
ghost use Rattle.printing.specs.Printed.{refusal_text, room};
ghost use Rattle.text.specs.Answer.{answer_held, answered, placed};

use input::{Graph, Refusal, SpectralParams, Verdict};
use reading::RunFile;
use state::Counts;

mod full; // reading until a list of bytes is full
mod graph; // the answer for a graph

pub use full::read_full;
pub use graph::answer_graph;

// So many bytes hold every answer.
pub const ROOM: usize = 8192;

// The answer for a run file that was read, from the first byte on; the place behind it.
fn answer_run(file: RunFile, out: &mut [u8]) -> usize
    requires start_count_bound { (file.start_count ≤ 65) × (file.column_count ≤ 1024) × (file.value_count ≤ 1024) }
    requires rounds_bound { file.rounds ≤ 400 }
    requires starts_len { (length file.starts ≡ 65) × (length file.columns ≡ 1024) × (length file.values ≡ 1024) × (room ≤ length out.old) }
    ensures { (result ≡ length (answer_held file)) × (result ≤ room) × (out.new ≡ put (answer_held file) 0 out.old) }
{
    let params = SpectralParams {
        rounds: file.rounds,
        degree: file.degree,
        seed_std: file.seed_std,
    };
    let graph = Graph {
        starts: &file.starts[..file.start_count],
        columns: &file.columns[..file.column_count],
        values: &file.values[..file.value_count],
    };
    answer_graph(file.d, params, graph, out)
}

// The refusal of a text that is no run file, from the first byte on; the place behind it.
fn answer_fault(line: u64, out: &mut [u8]) -> usize
    requires { room ≤ length out.old }
    ensures { (result ≡ length (refusal_text 17 line)) × (result ≤ room) × (out.new ≡ put (refusal_text 17 line) 0 out.old) }
{
    let counts = Counts {
        passes: 0,
        refreshed: 0,
        zeroed: 0,
        isolated: 0,
    };
    let fault = Verdict::from(Err(Refusal::File(line)));
    printing::write_answer(fault, 0, 0, counts, &[], out).unwrap()
}

// The whole output for the whole input; how many bytes it has. Where `out` has less than ROOM bytes it stays as it is.
pub fn answer(bytes: &[u8], out: &mut [u8]) -> Option<usize>
    ensures { (result ≡ answered bytes.now out.old) × (out.new ≡ placed bytes.now out.old) }
{
    if out.len() < ROOM {
        return None;
    }
    let file = reading::read_run(bytes);
    if file.is_right {
        return Some(answer_run(file, out));
    }
    Some(answer_fault(file.line, out))
}
