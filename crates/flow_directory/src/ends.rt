// One definition, several or none: where the paths in the result slots end. Document 02, order 11.
ghost use Rattle.std.specs.Prelude.{◌≡◌};
ghost use Rattle.semantics.specs.Limits.{slot_length};
ghost use Rattle.storage.specs.Index.{Blocks, edge_row};
ghost use Rattle.reply.specs.ResultSlots.{Fitting, AllFitting};
ghost use Rattle.flow_directory.specs.Ends.{target_of, slot_end, Ending};

use reply::lists;
use semantics::answer::Definitions;
use semantics::bounds::SLOT_WORDS;
use semantics::graph::{Edge, EdgeId, NodeId};
use storage::store;

// Where an edge leads to; 0 for one that is removed, which no path has.
fn target(index: &[u32], edge: u32) -> u32
    requires { Blocks index.now }
    ensures { result ≡ target_of (edge_row index.now edge) }
{
    match store::edge(index, EdgeId(edge)) {
        Edge::Removed => 0,
        Edge::Live {
            source: _,
            target,
            precedence: _,
        } => target.0,
    }
}

// Where the complete path in slot i ends: its last edge leads there.
fn end(index: &[u32], res: &[u32], i: usize) -> u32
    requires { Blocks index.now × Fitting slot_length i res.now }
    ensures { result ≡ slot_end index.now res.now i }
{
    let count = lists::edge_count(res, i);
    target(index, res[SLOT_WORDS * i + count])
}

// The definitions at which the paths in the first slots end.
pub fn definitions(index: &[u32], res: &[u32], paths: usize) -> Definitions
    requires { Blocks index.now × AllFitting slot_length paths res.now }
    ensures { Ending (slot_end index.now res.now) paths result }
{
    if 0 < paths {
        let first = end(index, res, 0);
        for i in 0..paths {
            if end(index, res, i) != first {
                return Definitions::Several;
            }
        }
        return Definitions::One(NodeId(first));
    }
    Definitions::Nothing
}
