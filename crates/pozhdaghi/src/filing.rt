// On numbers and slices: the database of partial paths in the caller's words.
ghost use Rattle.std.specs.Prelude.{◌≡◌, ◌+◌, ◌*◌, ◌≤◌, length};
ghost use Rattle.semantics.specs.Limits.{record_length};
ghost use Rattle.semantics.specs.Entries.{compact_database, convert_database, fresh_database, lookup_of, replace_asked, aliases_asked};
ghost use Rattle.semantics.specs.Written.{written};
ghost use Rattle.semantics.specs.Told.{told_creation, told_replacement, told_compaction, told_conversion, told_part};

use crate::numbers::Tell;
use crate::{asked, numbers};
use compaction::compact;
use conversion::convert;
use database::{fresh, layout, lookup};
use partial::replace;
use semantics::bounds;
use semantics::graph::{FileId, PartialPathId};

// 0; or the refusal.
pub fn pozhdaghi_fresh(image: &[u8], words: &mut [u32], answer: &mut [u64])
    ensures answer_after { answer.new ≡ written (length answer.old) (told_creation (fresh_database image.now words.old).answer) }
    ensures words_after { words.new ≡ (fresh_database image.now words.old).database }
{
    let created = fresh::fresh(image, words);
    created.tell(answer);
}

// A file replaced.
pub fn pozhdaghi_replace_file(
    image: &[u8],
    file: u32,
    asked: &[u64],
    work: &mut [u32],
    words: &mut [u32],
    answer: &mut [u64],
)
    ensures answer_after { answer.new ≡ written (length answer.old)
        (told_replacement (replace_asked image.now file asked.now work.old words.old).answer) }
    ensures work_after { work.new ≡ (replace_asked image.now file asked.now work.old words.old).work }
    ensures words_after { words.new ≡ (replace_asked image.now file asked.now work.old words.old).database }
{
    let replaced = replace::replace_for(
        image,
        Some(FileId(file)),
        asked::config(asked),
        work,
        words,
    );
    replaced.tell(answer);
}

// The alias set replaced.
pub fn pozhdaghi_replace_aliases(
    image: &[u8],
    asked: &[u64],
    work: &mut [u32],
    words: &mut [u32],
    answer: &mut [u64],
)
    ensures answer_after { answer.new ≡ written (length answer.old)
        (told_replacement (aliases_asked image.now asked.now work.old words.old).answer) }
    ensures work_after { work.new ≡ (aliases_asked image.now asked.now work.old words.old).work }
    ensures words_after { words.new ≡ (aliases_asked image.now asked.now work.old words.old).database }
{
    let replaced = replace::replace_for(image, None, asked::config(asked), work, words);
    replaced.tell(answer);
}

// 0; or the refusal. The old words are only read.
pub fn pozhdaghi_convert(old: &[u32], new: &mut [u32], answer: &mut [u64])
    ensures answer_after { answer.new ≡ written (length answer.old) (told_conversion (convert_database old.now new.old).answer) }
    ensures after { new.new ≡ (convert_database old.now new.old).written }
{
    let converted = convert::convert(old, new);
    converted.tell(answer);
}

// 0 and the number of live slots; or the refusal. The list has the old and the new number of each.
pub fn pozhdaghi_compact(words: &mut [u32], list: &mut [u32], answer: &mut [u64])
    ensures answer_after { answer.new ≡ written (length answer.old) (told_compaction (compact_database words.old list.old).answer) }
    ensures words_after { words.new ≡ (compact_database words.old list.old).database }
    ensures list_after { list.new ≡ (compact_database words.old list.old).list }
{
    let compacted = compact::compact(words, list);
    compacted.tell(answer);
}

// Where the edges of a record stand in the words.
fn place_of(number: u32) -> u64
    ensures { result ≡ 3 + record_length * number + 4 }
{
    (layout::FIRST_RECORD + bounds::RECORD_WORDS * number as usize + layout::EDGES) as u64
}

// The place and the length of the part of the words that holds the edges of a partial path; 0 and 0 for an empty part. A live record has an edge, so
// only an empty part has none.
pub fn pozhdaghi_lookup(words: &[u32], number: u32, answer: &mut [u64])
    ensures { answer.new ≡ written (length answer.old) (told_part (lookup_of number words.now)) }
{
    let part = lookup::lookup(words, PartialPathId(number));
    let place = if part.is_empty() { 0 } else { place_of(number) };
    numbers::write(&[place, part.len() as u64], answer);
}
