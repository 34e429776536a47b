// A database of every file's partial paths: every file replaced on this image without limits, in a fresh database or in one that was filed
// before, on this image or on earlier ones; with the alias set or without it. Document 01, "Partial paths", last paragraph, and document 02, order 5: such
// words meet the premise of demand 3.
ghost use Rattle.std.specs.Prelude.{◌≡◌, true};
ghost use Rattle.semantics.specs.Entries.{fresh_database};
ghost use Rattle.demand.specs.Filings.{is_created, is_replaced, refiling, aliasing, refilings, filings, all_refilings, Fills, Refills, RefillsAll};

use database::fresh;
use partial::replace;
use semantics::answer::{Creation, Replacement};
use semantics::graph::FileId;
use semantics::search::SearchOrder;

fn is_created(answer: Creation) -> bool
    ensures { result ≡ is_created answer }
{
    answer.is_ok()
}

fn is_replaced(answer: Replacement) -> bool
    ensures { result ≡ is_replaced answer }
{
    answer.is_ok()
}

// Whether the words are a fresh database now.
fn begin(image: &[u8], words: &mut [u32]) -> bool
    ensures value { result ≡ is_created (fresh_database image.now words.old).answer }
    ensures words_after { words.new ≡ (fresh_database image.now words.old).database }
{
    is_created(fresh::fresh(image, words))
}

// Whether a file is replaced now.
fn refile(image: &[u8], file: u32, order: SearchOrder, work: &mut [u32], words: &mut [u32]) -> bool
    ensures value { result ≡ is_replaced (refiling image.now order file work.old words.old).answer }
    ensures work_after { work.new ≡ (refiling image.now order file work.old words.old).work }
    ensures words_after { words.new ≡ (refiling image.now order file work.old words.old).database }
{
    let replaced = replace::replace_file(image, FileId(file), order, None, None, work, words);
    is_replaced(replaced)
}

// Whether the alias set is replaced now.
fn refile_aliases(image: &[u8], order: SearchOrder, work: &mut [u32], words: &mut [u32]) -> bool
    ensures value { result ≡ is_replaced (aliasing image.now order work.old words.old).answer }
    ensures work_after { work.new ≡ (aliasing image.now order work.old words.old).work }
    ensures words_after { words.new ≡ (aliasing image.now order work.old words.old).database }
{
    let replaced = replace::replace_aliases(image, order, None, None, work, words);
    is_replaced(replaced)
}

// Whether every file is filed, whatever the words held before; a refused call ends it.
pub fn refile_all(
    image: &[u8],
    files: u32,
    order: SearchOrder,
    work: &mut [u32],
    words: &mut [u32],
) -> bool
    ensures value { result ≡ (refilings image.now order 0 files work.old words.old).all }
    ensures work_after { work.new ≡ (refilings image.now order 0 files work.old words.old).work }
    ensures words_after { words.new ≡ (refilings image.now order 0 files work.old words.old).words }
    ensures refills { result ≡ true → Refills image.now files words.old words.new }
{
    for file in 0..files {
        if !refile(image, file, order, work, words) {
            return false;
        }
    }
    true
}

// The same in a fresh database.
pub fn file_all(
    image: &[u8],
    files: u32,
    order: SearchOrder,
    work: &mut [u32],
    words: &mut [u32],
) -> bool
    ensures value { result ≡ (filings image.now order files work.old words.old).all }
    ensures work_after { work.new ≡ (filings image.now order files work.old words.old).work }
    ensures words_after { words.new ≡ (filings image.now order files work.old words.old).words }
    ensures fills { result ≡ true → Fills image.now files words.new }
{
    if begin(image, words) {
        return refile_all(image, files, order, work, words);
    }
    false
}

// Every file, then the alias set, whatever the words held before.
pub fn refile_with_aliases(
    image: &[u8],
    files: u32,
    order: SearchOrder,
    work: &mut [u32],
    words: &mut [u32],
) -> bool
    ensures value { result ≡ (all_refilings image.now order files work.old words.old).all }
    ensures work_after { work.new ≡ (all_refilings image.now order files work.old words.old).work }
    ensures words_after { words.new ≡ (all_refilings image.now order files work.old words.old).words }
    ensures refills_all { result ≡ true → RefillsAll image.now files words.new }
{
    if refile_all(image, files, order, work, words) {
        return refile_aliases(image, order, work, words);
    }
    false
}
