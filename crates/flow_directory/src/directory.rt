// A cash flow of a directory resolved: the row of its key, the direct search from its reference, and the definitions that were found.
// Document 02, order 11.
ghost use Rattle.std.specs.Prelude.{◌≡◌, length};
ghost use Rattle.semantics.specs.Words.{zeros};
ghost use Rattle.semantics.specs.Directory.{FlowKey};
ghost use Rattle.semantics.specs.Entries.{key_of, flow_request_of, resolve_flow, Does};
ghost use Rattle.semantics.specs.Told.{told_flow};
ghost use Rattle.storage.specs.Index.{Takes};
ghost use Rattle.flow_directory.specs.Flows.{Searchable, Ended, EndedAs, resolved_of, listed_of};

use crate::rows::{LookUpRefusal, Sought};
use crate::{ends, isin, rows};
use direct_search::direct;
use reply::finish::{Reply, finish};
use search_state::search::Finished;
use semantics::answer::{Flow, FlowRefusal, Flowed};
use semantics::refusal::SearchRefusal;
use semantics::search::{SearchLimits, SearchOrder};
use storage::{blocks, check};
use words::slots;

// What is asked of an image beside the set of visible files: the rows and the key, the order and the limits of the search.
#[derive(Clone, Copy)]
struct Asked<'a> {
    rows: &'a [u8],
    key: Sought<'a>,
    order: SearchOrder,
    limits: SearchLimits,
}

// A refused call leaves both areas zero.
fn turn_back(flow: Flow, work: &mut [u32], res: &mut [u32]) -> Flow
    ensures { (result ≡ flow) × (work.new ≡ zeros (length work.old)) × (res.new ≡ zeros (length res.old)) }
{
    slots::zero(work);
    slots::zero(res);
    flow
}

// The returned paths of a search that has ended, and the definitions at which they end; or its refusal.
fn conclude(
    index: &[u32],
    driven: Result<Finished, SearchRefusal>,
    work: &mut [u32],
    res: &mut [u32],
) -> Flow
    requires { Ended index.now driven res.old }
    ensures { (v : Ended index.now driven res.old) → EndedAs v (length work.old) result work.new res.new }
{
    slots::zero(work);
    match driven {
        Ok(finished) => {
            let state = finished.state;
            let paths = finish(index, Reply::Returned, res, state.kept);
            let definitions = ends::definitions(index, res, paths);
            Ok(Flowed {
                definitions,
                paths: paths as u64,
                stats: finished.stats(),
            })
        }
        Err(r) => {
            slots::zero(res);
            Err(FlowRefusal::Refused(r))
        }
    }
}

// The direct search from a row's reference on a loaded graph.
fn resolve_from(
    index: &[u32],
    reference: u32,
    order: SearchOrder,
    limits: SearchLimits,
    work: &mut [u32],
    res: &mut [u32],
) -> Flow
    requires { Searchable index.now }
    ensures { (v : Searchable index.now) (k : FlowKey)
        → Does (resolved_of v.graph (flow_request_of k order limits work.old res.old) reference) result work.new res.new }
{
    slots::zero(res);
    let driven = direct::search_kept(index, reference, order, limits, work, res);
    conclude(index, driven, work, res)
}

// 41, 42, 43, then the search.
fn resolve_loaded(index: &[u32], asked: Asked, work: &mut [u32], res: &mut [u32]) -> Flow
    requires { Searchable index.now }
    ensures { (v : Searchable index.now)
        → Does (listed_of v.graph asked.entry.rows.now (flow_request_of (key_of asked.entry.key.isin.now asked.entry.key.tranche asked.entry.key.leg) asked.entry.order asked.entry.limits work.old res.old)) result work.new res.new }
{
    if !isin::is_isin(asked.key.isin) {
        return turn_back(Err(FlowRefusal::MalformedIsin), work, res);
    }
    match rows::look_up(asked.rows, asked.key) {
        Ok(reference) => resolve_from(index, reference, asked.order, asked.limits, work, res),
        Err(LookUpRefusal::Missing) => turn_back(Err(FlowRefusal::UnknownKey), work, res),
        Err(LookUpRefusal::Disordered) => turn_back(Err(FlowRefusal::Disordered), work, res),
    }
}

// The image is checked into the lent index before anything else.
fn resolve_in(
    image: &[u8],
    visible: &[u8],
    index: &mut [u32],
    asked: Asked,
    work: &mut [u32],
    res: &mut [u32],
) -> Flow
    requires { Takes image.now index.old }
    ensures { Does (resolve_flow image.now visible.now asked.entry.rows.now (key_of asked.entry.key.isin.now asked.entry.key.tranche asked.entry.key.leg) asked.entry.order asked.entry.limits work.old res.old) result work.new res.new }
{
    match check::load_seen(image, visible, index) {
        Err(r) => turn_back(Err(FlowRefusal::Image(r)), work, res),
        Ok(_) => resolve_loaded(index, asked, work, res),
    }
}

// A small image gets a small index: zeroing a large one would take longer than the search.
fn resolve_image(
    image: &[u8],
    visible: &[u8],
    asked: Asked,
    work: &mut [u32],
    res: &mut [u32],
) -> Flow
    ensures { Does (resolve_flow image.now visible.now asked.entry.rows.now (key_of asked.entry.key.isin.now asked.entry.key.tranche asked.entry.key.leg) asked.entry.order asked.entry.limits work.old res.old) result work.new res.new }
{
    if check::is_small(image) {
        let mut index = [0u32; blocks::SMALL];
        return resolve_in(image, visible, &mut index, asked, work, res);
    }
    let mut index = [0u32; blocks::INDEX];
    resolve_in(image, visible, &mut index, asked, work, res)
}

// A cash flow resolved, on any bytes and numbers.
pub fn resolve(
    image: &[u8],
    visible: &[u8],
    rows: &[u8],
    isin: &[u8],
    tranche: u32,
    leg: u32,
    order: SearchOrder,
    limits: SearchLimits,
    work: &mut [u32],
    res: &mut [u32],
) -> Flow
    ensures result_value { told_flow result ≡ told_flow (resolve_flow image.now visible.now rows.now (key_of isin.now tranche leg) order limits work.old res.old).answer }
    ensures work_after { work.new ≡ (resolve_flow image.now visible.now rows.now (key_of isin.now tranche leg) order limits work.old res.old).work }
    ensures res_after { res.new ≡ (resolve_flow image.now visible.now rows.now (key_of isin.now tranche leg) order limits work.old res.old).result }
{
    let key = Sought { isin, tranche, leg };
    let asked = Asked {
        rows,
        key,
        order,
        limits,
    };
    resolve_image(image, visible, asked, work, res)
}
