// A fresh database.
// Document 01, "Partial paths": "A fresh database holds 0, N, F and zeros"; "Turned back": "A fresh database gives 35 only for under 3 words".
ghost use Rattle.std.specs.Prelude.{◌≡◌, length};
ghost use Rattle.semantics.specs.Entries.{fresh_database};
ghost use Rattle.semantics.specs.Graph.{Graph};
ghost use Rattle.semantics.specs.Told.{told_creation};
ghost use Rattle.database.specs.Fresh.{Created};

use crate::{layout, replace};
use semantics::answer::{Creation, CreationRefusal};
use storage::check;
use words::slots;

// The words become a database for a graph of so many nodes and files.
fn create(words: &mut [u32], nodes: u32, files: u32) -> Creation
    ensures { (g : Graph) → nodes ≡ length g.nodes → files ≡ g.files → Created g words.old result words.new }
{
    if words.len() < layout::FIRST_RECORD {
        return Err(CreationRefusal::Malformed);
    }
    slots::zero(words);
    replace::store_header(words, 0, nodes, files);
    Ok(())
}

// The image is checked first; a refused call alters no word.
pub fn fresh(image: &[u8], words: &mut [u32]) -> Creation
    ensures result_value { told_creation result ≡ told_creation (fresh_database image.now words.old).answer }
    ensures words_after { words.new ≡ (fresh_database image.now words.old).database }
{
    let counts = check::check(image).map_err(CreationRefusal::Image)?;
    create(words, counts.nodes, counts.files)
}
