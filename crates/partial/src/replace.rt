// A file, or the alias set, replaced in the database. Document 01, "Partial paths": `replace_file`; 33 follows a finished computation. Document 02,
// order 5: the alias set has an owner that is no file, so there is no 21.
// A refused replacement alters no word, and the words behind the used slots may hold anything: so the paths are computed and counted
// first, and computed again and filed when all refusals are past; the second computation ends with the last of them, and where none was
// found there is none.
ghost use Rattle.std.specs.Prelude.{◌≡◌, ◌+◌, ◌≤◌, ◌<◌, ◌^◌, replicate};
ghost use Rattle.semantics.specs.Entries.{graph_in, replace_file, replace_aliases, Changes, Leaves};
ghost use Rattle.semantics.specs.Limits.{base, nobody};
ghost use Rattle.semantics.specs.Told.{told_replacement};
ghost use Rattle.semantics.specs.Database.{replace_words};
ghost use Rattle.storage.specs.Index.{INDEX, Takes};
ghost use Rattle.partial.specs.Replacements.{asked_by, number_of, Computing, FiledTo, Storing, Few, Replacing, computed_on, replaced_on, inspected_on, call_for};

use crate::compute;
use database::{layout, replace};
use partial_state::extraction::Config;
use partial_state::filing::Filing;
use semantics::answer::{Counts, Replacement, ReplacementRefusal};
use semantics::bounds::NOBODY;
use semantics::graph::FileId;
use semantics::refusal::PartialPathRefusal;
use semantics::search::{Limit, SearchOrder};
use storage::blocks::{INDEX, SMALL};
use storage::check;
use words::slots;

// The second computation takes the course of the first, up to the last path: it is not refused, and its counts are known. It has nothing to file where
// the first found none.
fn file_found(
    index: &[u32],
    nodes: u32,
    filing: Filing,
    config: Config,
    work: &mut [u32],
    words: &mut [u32],
)
    requires { Computing index.now nodes filing words.old }
    ensures { FiledTo index.now nodes filing config work.old words.old words.new }
{
    if 0 < filing.room {
        let _ = compute::compute(index, nodes, filing, config, work, words);
    }
}

// The found paths are filed in the place of the file's old ones.
fn store(
    index: &[u32],
    counts: Counts,
    filing: Filing,
    config: Config,
    work: &mut [u32],
    words: &mut [u32],
)
    requires { Storing index.now counts filing config work.old words.old }
    ensures { (v : Storing index.now counts filing config work.old words.old) → words.new
        ≡ replace_words base v.sized.holds.graph filing.file v.found words.old }
{
    replace::clear_file(words, filing.file);
    file_found(index, counts.nodes, filing, config, work, words);
    let used = filing.first + filing.room;
    replace::store_header(words, used as u32, counts.nodes, counts.files);
}

// The computation, then 33.
fn replace_owner(
    index: &[u32],
    counts: Counts,
    owner: u32,
    config: Config,
    work: &mut [u32],
    words: &mut [u32],
) -> Replacement
    requires { Replacing index.now counts words.old × (owner + 1 < 2 ^ 32) }
    ensures { (v : Replacing index.now counts words.old)
        → Leaves (computed_on v.sized.holds.graph (asked_by config work.old owner) words.old) result words.new }
{
    let first = layout::number(words, layout::USED_AT);
    let counting = Filing {
        file: owner,
        first,
        room: 0,
    };
    match compute::compute(index, counts.nodes, counting, config, work, words) {
        Err(r) => Err(ReplacementRefusal::Refused(r)),
        Ok(stats) => {
            if replace::has_room(words, stats.found) {
                let filing = Filing {
                    file: owner,
                    first,
                    room: stats.found as usize,
                };
                store(index, counts, filing, config, work, words);
                return Ok(stats);
            }
            Err(ReplacementRefusal::Full)
        }
    }
}

// 21 before it, where a file is meant.
fn replace_known(
    index: &[u32],
    counts: Counts,
    file: u32,
    config: Config,
    work: &mut [u32],
    words: &mut [u32],
) -> Replacement
    requires { Replacing index.now counts words.old × (counts.files < nobody) }
    ensures { (v : Replacing index.now counts words.old)
        → Leaves (replaced_on v.sized.holds.graph (asked_by config work.old file) words.old) result words.new }
{
    if counts.files <= file {
        return Err(ReplacementRefusal::Refused(PartialPathRefusal::UnknownFile(FileId(file))));
    }
    replace_owner(index, counts, file, config, work, words)
}

// 35 and 34 before that. The owner is a file, or nobody, whose partial paths are the alias set.
fn replace_loaded(
    index: &[u32],
    counts: Counts,
    owner: Option<FileId>,
    config: Config,
    work: &mut [u32],
    words: &mut [u32],
) -> Replacement
    requires { Few index.now counts }
    ensures { (v : Few index.now counts)
        → Leaves (inspected_on owner v.sized.holds.graph (asked_by config work.old (number_of owner)) words.old) result words.new }
{
    match database::check::check(words, counts.nodes, counts.files) {
        Err(r) => Err(ReplacementRefusal::Database(r)),
        Ok(()) => match owner {
            Some(file) => replace_known(index, counts, file.0, config, work, words),
            None => replace_owner(index, counts, NOBODY, config, work, words),
        },
    }
}

// The image before that, into the lent index. The work area is zero after every call.
fn replace_in(
    image: &[u8],
    index: &mut [u32],
    owner: Option<FileId>,
    config: Config,
    work: &mut [u32],
    words: &mut [u32],
) -> Replacement
    requires { Takes image.now index.old }
    ensures { Changes (call_for owner (graph_in image.now) (asked_by config work.old (number_of owner)) words.old) result work.new words.new }
{
    let checked = check::load_fresh(image, index);
    match checked {
        Err(r) => {
            slots::zero(work);
            Err(ReplacementRefusal::Image(r))
        }
        Ok(counts) => {
            let answer = replace_loaded(index, counts, owner, config, work, words);
            slots::zero(work);
            answer
        }
    }
}

// An index of so many words stands in a function that is not compiled into its caller: a stack frame with a large index has forty pages, and to touch
// them takes a third of the time of a call on a small image.
#[inline(never)]
fn replace_with<const WORDS: usize>(
    image: &[u8],
    owner: Option<FileId>,
    config: Config,
    work: &mut [u32],
    words: &mut [u32],
) -> Replacement
    requires { Takes image.now (replicate WORDS 0) × (WORDS ≤ INDEX) }
    ensures { Changes (call_for owner (graph_in image.now) (asked_by config work.old (number_of owner)) words.old) result work.new words.new }
{
    let mut index = [0u32; WORDS];
    replace_in(image, &mut index, owner, config, work, words)
}

// A small image gets a small index: zeroing a large one would take longer than the rest.
pub fn replace_for(
    image: &[u8],
    owner: Option<FileId>,
    config: Config,
    work: &mut [u32],
    words: &mut [u32],
) -> Replacement
    ensures { Changes (call_for owner (graph_in image.now) (asked_by config work.old (number_of owner)) words.old) result work.new words.new }
{
    if check::is_small(image) {
        return replace_with::<SMALL>(image, owner, config, work, words);
    }
    replace_with::<INDEX>(image, owner, config, work, words)
}

// Any bytes, numbers and words.
pub fn replace_file(
    image: &[u8],
    file: FileId,
    order: SearchOrder,
    length: Limit,
    expansions: Limit,
    work: &mut [u32],
    words: &mut [u32],
) -> Replacement
    ensures result_value { told_replacement result ≡ told_replacement (replace_file image.now file.0 order length expansions work.old words.old).answer }
    ensures work_after { work.new ≡ (replace_file image.now file.0 order length expansions work.old words.old).work }
    ensures words_after { words.new ≡ (replace_file image.now file.0 order length expansions work.old words.old).database }
{
    let config = Config {
        order,
        length,
        expansions,
    };
    replace_for(image, Some(file), config, work, words)
}

// The alias set: no file is asked.
pub fn replace_aliases(
    image: &[u8],
    order: SearchOrder,
    length: Limit,
    expansions: Limit,
    work: &mut [u32],
    words: &mut [u32],
) -> Replacement
    ensures result_value { told_replacement result ≡ told_replacement (replace_aliases image.now order length expansions work.old words.old).answer }
    ensures work_after { work.new ≡ (replace_aliases image.now order length expansions work.old words.old).work }
    ensures words_after { words.new ≡ (replace_aliases image.now order length expansions work.old words.old).database }
{
    let config = Config {
        order,
        length,
        expansions,
    };
    replace_for(image, None, config, work, words)
}
