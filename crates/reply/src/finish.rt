// Which paths of a search are put into the result slots. Document 01, "Answer": a search returns the paths that nothing shadows; an added
// call for each search returns its recorded paths.
ghost use Rattle.storage.specs.Index.{HoldsGraph};
ghost use Rattle.semantics.specs.Limits.{slot_length};
ghost use Rattle.reply.specs.ResultSlots.{Lists};
ghost use Rattle.reply.specs.Replies.{Replied};

use crate::copies::drop_copies;
use crate::shadowed::drop_shadowed;

#[derive(Clone, Copy, Debug, PartialEq, Eq)]
pub enum Reply {
    Returned,
    Recorded,
}

// The kept paths of a search that has ended become those of the reply; answers how many they are.
pub fn finish(index: &[u32], reply: Reply, res: &mut [u32], kept: usize) -> usize
    requires holds_graph { HoldsGraph index.now }
    requires lists { Lists slot_length kept res.old }
    ensures { Replied index.now reply kept res.old result res.new }
{
    let recorded = drop_copies(res, kept);
    match reply {
        Reply::Returned => drop_shadowed(index, res, recorded),
        Reply::Recorded => recorded,
    }
}
