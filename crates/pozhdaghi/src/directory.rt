// On numbers and slices: a cash flow of a directory. It answers 0, what the direct search from the row's reference tells, then 0, 1 or 2 for no definition, one or several, and the one; or the refusal.
ghost use Rattle.std.specs.Prelude.{◌≡◌, length};
ghost use Rattle.semantics.specs.Entries.{key_of, flow_asked};
ghost use Rattle.semantics.specs.Written.{written};
ghost use Rattle.semantics.specs.Told.{told_flow};

use crate::asked;
use crate::numbers::Tell;
use flow_directory::directory;

pub fn pozhdaghi_resolve_flow(
    image: &[u8],
    visible: &[u8],
    rows: &[u8],
    isin: &[u8],
    tranche: u32,
    leg: u32,
    asked: &[u64],
    work: &mut [u32],
    res: &mut [u32],
    answer: &mut [u64],
)
    ensures answer_after { answer.new ≡ written (length answer.old)
        (told_flow (flow_asked image.now visible.now rows.now (key_of isin.now tranche leg) asked.now work.old res.old).answer) }
    ensures work_after { work.new ≡ (flow_asked image.now visible.now rows.now (key_of isin.now tranche leg) asked.now work.old res.old).work }
    ensures res_after { res.new ≡ (flow_asked image.now visible.now rows.now (key_of isin.now tranche leg) asked.now work.old res.old).result }
{
    let order = asked::order(asked);
    let limits = asked::limits(asked);
    let found = directory::resolve(
        image, visible, rows, isin, tranche, leg, order, limits, work, res,
    );
    found.tell(answer);
}
