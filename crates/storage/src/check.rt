// The check of a whole image, and the index of the graph that it holds.
// Document 01, "Turned back": size and length as 2, then 1, 2 by the version's size, 3, the records in order, bytes left over, and last 5 in record order.
ghost use Rattle.std.specs.Prelude.{◌≡◌, true, ◌<◌, ◌≤◌, length, Err};
ghost use Rattle.storage.specs.References.{Sources};
ghost use Rattle.semantics.specs.Entries.{graph_in, check_of};
ghost use Rattle.semantics.specs.declared.refusal.ImageRefusal.TheVariants as Image;
ghost use Rattle.semantics.specs.Acceptance.{accepts};
ghost use Rattle.semantics.specs.Answer.{ok};
ghost use Rattle.semantics.specs.Calls.{check_call};
ghost use Rattle.semantics.specs.Graph.{Graph};
ghost use Rattle.semantics.specs.Image.{symbol_bytes, first_record, header, place_of};
ghost use Rattle.semantics.specs.Told.{told_checked};
ghost use Rattle.semantics.specs.Words.{zeros};
ghost use Rattle.semantics.specs.Hidden.{sees, seen};
ghost use Rattle.storage.specs.Checks.{references_of, Unlinked, shown};
ghost use Rattle.hiding.specs.Hiding.{Counted, Fits};
ghost use Rattle.image.specs.Filling.{Held};
ghost use Rattle.image.specs.Records.{Headed, graph_read};
ghost use Rattle.storage.specs.Index.{INDEX, is_small, Takes, Loaded};

use crate::{blocks, links, refs};
use hiding::hiding::hide;
use image::{header, scan};
use semantics::answer::{Checked, Counts};
use semantics::refusal::ImageRefusal;

// Refusal 5 at the place of record k, counted from a place on.
fn misfit(image: &[u8], from: usize, k: u32) -> Checked
    requires { (from < 1048576) × (k < 65536) }
    ensures { result ≡ Err (Image.Reference (place_of image.now from k)) }
{
    Err(ImageRefusal::Reference {
        place: scan::place(image, from, k) as u32,
    })
}

// Is all there that the records refer to? 5 at the place of the first that does not fit, else the counts. Nothing is linked yet.
fn judge_references(image: &[u8], index: &[u32]) -> Checked
    requires headed { Headed image.now }
    requires held { Held (graph_read image.now) index.now }
    ensures value { result ≡ check_call (references_of image.now) }
    ensures sources { (g : Graph) → references_of image.now ≡ ok g → Sources index.now }
{
    let nodes = header::nodes(image);
    if let Some(n) = refs::misfit_node(index, nodes) {
        return misfit(image, header::FIRST_RECORD, n);
    }
    let edges = header::edges(image);
    if let Some(e) = refs::misfit_edge(index, edges) {
        return misfit(image, scan::place(image, header::FIRST_RECORD, nodes), e);
    }
    Ok(Counts {
        files: header::files(image),
        nodes,
        edges,
    })
}

// The records in order, bytes left over, what the records refer to.
fn read(image: &[u8], index: &mut [u32]) -> Checked
    requires image_value { header symbol_bytes image.now ≡ ok first_record }
    requires takes { Takes image.now index.old }
    ensures value { result ≡ check_of image.now }
    ensures unlinked { (g : Graph) → graph_in image.now ≡ ok g → Unlinked g index.new }
{
    let last = scan::records(image, index)?;
    if last != image.len() {
        return Err(ImageRefusal::Length);
    }
    judge_references(image, index)
}

// The check into a fresh index: where the image is accepted, its records stand there and no edge is linked yet.
fn judge(image: &[u8], index: &mut [u32]) -> Checked
    requires { Takes image.now index.old }
    ensures value { result ≡ check_of image.now }
    ensures unlinked { (g : Graph) → graph_in image.now ≡ ok g → Unlinked g index.new }
{
    header::header(image)?;
    read(image, index)
}

// What hidden files hold is cleared in a filled index, unless the whole graph is wanted.
fn hide_unless(whole: bool, index: &mut [u32], visible: &[u8], counts: Counts)
    requires { Fits counts index.old }
    ensures { (g : Graph) → accepts g ≡ true → Counted counts g → Held g index.old → Held (shown whole (sees visible.now) g) index.new }
{
    if !whole {
        hide(index, visible, counts);
    }
}

// The same check, and the edges of an accepted image are linked: the index then holds its graph, or what is seen of it. One function for both, so that the
// check has one caller and is compiled into it: apart, it costs a small search a tenth of its time.
fn load_shown(image: &[u8], whole: bool, visible: &[u8], index: &mut [u32]) -> Checked
    requires { Takes image.now index.old }
    ensures value { result ≡ check_of image.now }
    ensures loaded { (g : Graph) → graph_in image.now ≡ ok g → Loaded (shown whole (sees visible.now) g) index.new }
{
    let counts = judge(image, index)?;
    hide_unless(whole, index, visible, counts);
    links::link(index, counts.edges);
    Ok(counts)
}

// The graph of an accepted image, whole.
pub fn load_fresh(image: &[u8], index: &mut [u32]) -> Checked
    requires { Takes image.now index.old }
    ensures value { result ≡ check_of image.now }
    ensures loaded { (g : Graph) → graph_in image.now ≡ ok g → Loaded g index.new }
{
    let unasked: [u8; 0] = [];
    load_shown(image, true, &unasked, index)
}

// The whole image is checked; what hidden files hold is cleared before the edges are linked, so that no search meets it.
pub fn load_seen(image: &[u8], visible: &[u8], index: &mut [u32]) -> Checked
    requires { Takes image.now index.old }
    ensures value { result ≡ check_of image.now }
    ensures loaded { (g : Graph) → graph_in image.now ≡ ok g → Loaded (seen (sees visible.now) g) index.new }
{
    load_shown(image, false, visible, index)
}

// As `load_fresh`, into a large index with any words.
pub fn load(image: &[u8], index: &mut [u32]) -> Checked
    requires { length index.old ≡ INDEX }
    ensures value { result ≡ check_of image.now }
    ensures loaded { (g : Graph) → graph_in image.now ≡ ok g → Loaded g index.new }
{
    blocks::clear(index);
    load_fresh(image, index)
}

// Does a small index take the image? Asked of any bytes, before they are checked.
pub fn is_small(image: &[u8]) -> bool
    ensures { result ≡ is_small image.now }
{
    if image.len() < header::FIRST_RECORD {
        return false;
    }
    if blocks::FEW < header::nodes(image) {
        return false;
    }
    if blocks::FEW < header::edges(image) {
        return false;
    }
    true
}

// An index of N words. It is compiled into no caller, and once for each N: a call then needs room for one index and not for both.
#[inline(never)]
fn check_in<const N: usize>(image: &[u8]) -> Checked
    requires n_bound { N ≤ INDEX }
    requires takes { Takes image.now (zeros N) }
    ensures { told_checked result ≡ told_checked (check_of image.now) }
{
    let mut index = [0u32; N];
    load_fresh(image, &mut index)
}

// The check of any bytes. A small image gets a small index: zeroing a large one would take longer than the check.
pub fn check(image: &[u8]) -> Checked
    ensures { told_checked result ≡ told_checked (check_of image.now) }
{
    if is_small(image) {
        return check_in::<{ blocks::SMALL }>(image);
    }
    check_in::<{ blocks::INDEX }>(image)
}
