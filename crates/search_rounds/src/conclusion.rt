// How the rounds of a search end, and what is then handed out. Document 01, "Answer".
ghost use Rattle.std.specs.Prelude.{◌≡◌, length};
ghost use Rattle.semantics.specs.Entries.{Does};
ghost use Rattle.semantics.specs.Limits.{base};
ghost use Rattle.semantics.specs.Graph.{view_of};
ghost use Rattle.semantics.specs.Calls.{Request, search_outcome};
ghost use Rattle.path.specs.Shadows.Laws.{JumpAt};
ghost use Rattle.reply.specs.Replies.{reply_of};
ghost use Rattle.search_rounds.specs.Finishes.{Concluding};

use reply::finish::{Reply, finish};
use search_state::search::Finished;
use semantics::answer::{Resolution, ResolutionRefusal, Resolved};
use semantics::refusal::SearchRefusal;
use words::slots;

// The paths of the reply, or the refusal; both areas as every call leaves them.
pub fn conclude(
    index: &[u32],
    driven: Result<Finished, SearchRefusal>,
    reply: Reply,
    work: &mut [u32],
    res: &mut [u32],
) -> Resolution
    requires { Concluding index.now driven res.old }
    ensures { (v : Concluding index.now driven res.old) → JumpAt (view_of v.graph) → (q : Request) → length work.old
        ≡ q.work → length res.old ≡ q.result → Does (search_outcome base (reply_of reply) q v.answer) result work.new res.new }
{
    slots::zero(work);
    match driven {
        Ok(finished) => {
            let paths = finish(index, reply, res, finished.state.kept);
            Ok(Resolved {
                paths: paths as u64,
                stats: finished.stats(),
            })
        }
        Err(r) => {
            slots::zero(res);
            Err(ResolutionRefusal::Refused(r))
        }
    }
}
