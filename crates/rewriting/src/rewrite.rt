// The two rewrites of an image: from version 1 to 2, and back. Document 02, order 3: the image's refusals, 38, 2, 32; bytes behind the
// result are zero, and a refused call leaves none that is not.
ghost use Rattle.std.specs.Prelude.{◌≡◌, ◌≤◌, length};
ghost use Rattle.semantics.specs.Answer.{ok};
ghost use Rattle.semantics.specs.Calls.{check_call};
ghost use Rattle.semantics.specs.Entries.{widen_image, narrow_image};
ghost use Rattle.semantics.specs.Graph.{Graph};
ghost use Rattle.semantics.specs.Told.{told_rewriting};
ghost use Rattle.semantics.specs.Words.{zeros};
ghost use Rattle.storage.specs.Index.{INDEX, Takes, Loaded};
ghost use Rattle.rewriting.specs.Rewrites.{graph_as, Does};
ghost use Rattle.image.specs.Versions.{number_of};
ghost use Rattle.rewriting.specs.Versions.{other_of, rewritten};

use crate::{back, forward};
use image::header;
use image::version::Version;
use semantics::answer::{Checked, Rewriting, RewritingRefusal};
use semantics::refusal::ImageRefusal;
use storage::{blocks, check};
use words::bytes;

// Every lent byte is cleared before anything else: a refused call leaves it so, and so does the result behind its last byte.
fn clear(area: &mut [u8])
    ensures { area.new ≡ zeros (length area.old) }
{
    area.fill(0);
}

// The check of an image of one version alone: another one is refused where the version is checked, after size and length.
fn load_version(image: &[u8], version: Version, index: &mut [u32]) -> Checked
    requires { Takes image.now index.old }
    ensures value { result ≡ check_call (graph_as (number_of version) image.now) }
    ensures loaded { (g : Graph) → graph_as (number_of version) image.now ≡ ok g → Loaded g index.new }
{
    if header::sized(image) {
        if bytes::byte(image, 0) != version.number() {
            return Err(ImageRefusal::Version);
        }
    }
    check::load_fresh(image, index)
}

// The version of an image that is rewritten in the given one.
fn other(version: Version) -> Version
    ensures { result ≡ other_of version }
{
    match version {
        Version::Narrow => Version::Wide,
        Version::Wide => Version::Narrow,
    }
}

// With an index of N words.
fn rewrite_in<const N: usize>(image: &[u8], to: Version, area: &mut [u8]) -> Rewriting
    requires n_bound { N ≤ INDEX }
    requires takes { Takes image.now (zeros N) }
    requires area_value { area.old ≡ zeros (length area.old) }
    ensures { Does (rewritten to image.now (length area.old)) result area.new }
{
    let mut index = [0u32; N];
    match load_version(image, other(to), &mut index) {
        Ok(counts) => match to {
            Version::Narrow => back::narrow_graph(image, &index, counts, area),
            Version::Wide => forward::widen_graph(image, &index, counts, area),
        },
        Err(r) => Err(RewritingRefusal::Image(r)),
    }
}

// A small image gets a small index: zeroing a large one would take longer than the rest.
fn rewrite(image: &[u8], to: Version, area: &mut [u8]) -> Rewriting
    requires { area.old ≡ zeros (length area.old) }
    ensures { Does (rewritten to image.now (length area.old)) result area.new }
{
    if check::is_small(image) {
        return rewrite_in::<{ blocks::SMALL }>(image, to, area);
    }
    rewrite_in::<{ blocks::INDEX }>(image, to, area)
}

// An image of version 1 rewritten in version 2.
pub fn widen(image: &[u8], area: &mut [u8]) -> Rewriting
    ensures result_value { told_rewriting result ≡ told_rewriting (widen_image image.now area.old).answer }
    ensures area_after { area.new ≡ (widen_image image.now area.old).bytes }
{
    clear(area);
    rewrite(image, Version::Wide, area)
}

// An image of version 2 rewritten in version 1.
// Kept: a call for each direction, as each is a public call of its name; what both do is one function.
pub fn narrow(image: &[u8], area: &mut [u8]) -> Rewriting
    ensures result_value { told_rewriting result ≡ told_rewriting (narrow_image image.now area.old).answer }
    ensures area_after { area.new ≡ (narrow_image image.now area.old).bytes }
{
    clear(area);
    rewrite(image, Version::Narrow, area)
}
