// The nightly map job: the seed of a stored graph at the parameters of `SpectralParams::new()`. Standard input is a run file, of which only the
// dimensions and the graph are used; what is printed must be the stored map, bit for bit.
#![tactic(auto)]

ghost use Rattle.std.specs.Prelude.{◌≡◌, ◌≤◌, length};

use input::{Graph, SpectralParams};
use reading::RunFile;
use std::io;

// Prints the map of the run file's graph.
fn print_map(rt: &impl Print, file: RunFile) -> io::Result<()>
    requires start_count_bound { (file.start_count ≤ 65) × (file.column_count ≤ 1024) × (file.value_count ≤ 1024) }
    requires starts_len { (length file.starts ≡ 65) × (length file.columns ≡ 1024) × (length file.values ≡ 1024) }
{
    let mut out = [0u8; 8192];
    let graph = Graph {
        starts: &file.starts[..file.start_count],
        columns: &file.columns[..file.column_count],
        values: &file.values[..file.value_count],
    };
    let end = text::answer_graph(file.d, SpectralParams::new(), graph, &mut out);
    rt.write_all(&out[..end])
}

fn main(rt: HostRuntime) -> io::Result<()> {
    let mut buf = [0u8; 32769];
    let count = text::read_full(&mut rt.stdin(), &mut buf);
    let file = reading::read_run(&buf[..count]);
    if file.is_right {
        return print_map(&rt, file);
    }
    rt.write_all(b"not a run file\n")
}
