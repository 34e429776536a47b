// From version 1 to version 2. Document 02, order 3: 2 where the result would be too long, then 32.
ghost use Rattle.std.specs.Prelude.{◌≡◌, length};
ghost use Rattle.semantics.specs.Rewriting.{widen};
ghost use Rattle.semantics.specs.Words.{zeros};
ghost use Rattle.rewriting.specs.Rewrites.{Given, Does};

use crate::{symbols, write};
use image::version;
use image::version::Version;
use semantics::answer::{Counts, Rewriting, RewritingRefusal};
use semantics::refusal::ImageRefusal;

// A symbol has so many bytes more in version 2.
const MORE: usize = 4;

// A loaded graph of version 1 in version 2: each of its symbols fits, but the result may be too long.
pub(crate) fn widen_graph(image: &[u8], index: &[u32], counts: Counts, area: &mut [u8]) -> Rewriting
    requires given { Given 1 image.now index.now counts }
    requires area_value { area.old ≡ zeros (length area.old) }
    ensures { Does (widen image.now (length area.old)) result area.new }
{
    let size = image.len() + MORE * symbols::count_symbols(index, counts.nodes) as usize;
    if version::MOST_BYTES < size {
        return Err(RewritingRefusal::Image(ImageRefusal::Length));
    }
    if area.len() < size {
        return Err(RewritingRefusal::NoRoom);
    }
    let length = size as u32;
    write::write_image(index, Version::Wide, counts, length, area);
    Ok(length)
}
