// From version 2 to version 1. Document 02, order 3: 38 where a symbol does not fit, then 32.
ghost use Rattle.std.specs.Prelude.{◌≡◌, ◌<◌, length, Err};
ghost use Rattle.semantics.specs.Image.{first_record, place_of};
ghost use Rattle.semantics.specs.Rewriting.{narrow};
ghost use Rattle.semantics.specs.Words.{zeros};
ghost use Rattle.storage.specs.Index.{NODES};
ghost use Rattle.rewriting.specs.Rewrites.{Given, Does};
ghost use Rattle.semantics.specs.declared.answer.RewritingRefusal.{RewritingRefusal};

use crate::{symbols, write};
use image::version::Version;
use image::{header, scan};
use semantics::answer::{Counts, Rewriting, RewritingRefusal};

// A symbol has so many bytes less in version 1.
const LESS: usize = 4;

// Refusal 38 at the place of record n of the given image.
fn wide_symbol(image: &[u8], n: u32) -> Rewriting
    requires { n < NODES }
    ensures { result ≡ Err (RewritingRefusal.WideSymbol (place_of image.now first_record n)) }
{
    Err(RewritingRefusal::WideSymbol {
        place: scan::place(image, header::FIRST_RECORD, n) as u32,
    })
}

// A loaded graph of version 2 in version 1: a symbol may not fit, but the result is never too long.
pub(crate) fn narrow_graph(
    image: &[u8],
    index: &[u32],
    counts: Counts,
    area: &mut [u8],
) -> Rewriting
    requires given { Given 2 image.now index.now counts }
    requires area_value { area.old ≡ zeros (length area.old) }
    ensures { Does (narrow image.now (length area.old)) result area.new }
{
    if let Some(n) = symbols::first_wide(index, counts.nodes) {
        return wide_symbol(image, n);
    }
    let size = image.len() - LESS * symbols::count_symbols(index, counts.nodes) as usize;
    if area.len() < size {
        return Err(RewritingRefusal::NoRoom);
    }
    let length = size as u32;
    write::write_image(index, Version::Narrow, counts, length, area);
    Ok(length)
}
