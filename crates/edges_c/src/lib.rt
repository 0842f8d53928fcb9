// What C and Rust link of edges, under its C name. A slice is a pointer and a length.
#![tactic(auto)]

ghost use Rattle.std.specs.Prelude.{◌≡◌};
ghost use Rattle.edges.specs.Edges.{chunk_columns, chunk_weights, ChunkLists};

use edges::edges_chunk;

#[unsafe(no_mangle)]
pub extern "C" fn edges_edges_chunk(
    first: usize,
    end: usize,
    starts: &[u64],
    columns: &[u32],
    values: &[f64],
    inverse: &[f64],
    edge_columns: &mut [u32],
    edge_weights: &mut [f64],
)
    requires { ChunkLists first end starts.now columns.now values.now inverse.now edge_columns.old edge_weights.old }
    ensures edge_columns_after { edge_columns.new ≡ chunk_columns first end starts.now columns.now edge_columns.old }
    ensures edge_weights_after { edge_weights.new
        ≡ chunk_weights first end starts.now columns.now values.now inverse.now edge_weights.old }
{
    edges_chunk(
        first,
        end,
        starts,
        columns,
        values,
        inverse,
        edge_columns,
        edge_weights,
    );
}
