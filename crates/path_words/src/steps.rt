// The steps of a path in order: its edges, and the jumps behind them.
ghost use Rattle.std.specs.Prelude.{◌≡◌, false, [], get_or};
ghost use Rattle.semantics.specs.ReplayedPaths.{passages_to};
ghost use Rattle.semantics.specs.Lists.{cons_if};
ghost use Rattle.semantics.specs.Calls.{jump};
ghost use Rattle.path_words.specs.Written.{Adds};
ghost use Rattle.semantics.specs.PathWords.{closed, step_words};

use crate::cells;
use crate::cells::{part, word};
use crate::put::{NONE, put, put_item};
use semantics::replayed::Path;

// What stands in front of an edge.
const EDGE: u32 = 1;
// In front of the scope that was jumped to.
const JUMP: u32 = 2;

// A flag; false behind the last.
fn flag(flags: &[bool], at: usize) -> bool
    ensures { result ≡ get_or flags.now at false }
{
    flags.get(at).copied().unwrap_or(false)
}

// A jump leads to where the path stands behind its edge.
fn write_jump(jumps: bool, to: u32, area: &mut [u32], from: usize) -> usize
    ensures { Adds area.old from area.new result (step_words (cons_if jumps (jump to) [])) }
{
    if jumps {
        return put_item(area, from, JUMP, to);
    }
    from
}

// Each edge, then the jump behind it if there is one.
pub(crate) fn write_steps(path: Path, area: &mut [u32], from: usize) -> usize
    ensures { Adds area.old from area.new result (closed (step_words (passages_to path path.count))) }
{
    let edges = path.edges;
    let jumps = path.jumps;
    let steps = path.steps;
    let mut at = from;
    for i in 0..path.count {
        at = put_item(area, at, EDGE, word(&edges, i as usize));
        let to = part(&steps, i + 1, cells::END);
        at = write_jump(flag(&jumps, i as usize), to, area, at);
    }
    put(area, at, NONE)
}
