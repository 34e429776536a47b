// Exported: the database of partial paths in the caller's words.
ghost use Rattle.std.specs.Prelude.{◌≡◌, length};
ghost use Rattle.semantics.specs.Entries.{compact_database, convert_database, fresh_database, lookup_of, replace_asked, aliases_asked};
ghost use Rattle.semantics.specs.Written.{written};
ghost use Rattle.semantics.specs.Told.{told_creation, told_replacement, told_compaction, told_conversion, told_part};

use pozhdaghi::filing;

// 0; or the refusal.
#[unsafe(no_mangle)]
pub extern "C" fn pozhdaghi_fresh(image: &[u8], words: &mut [u32], answer: &mut [u64])
    ensures answer_after { answer.new ≡ written (length answer.old) (told_creation (fresh_database image.now words.old).answer) }
    ensures words_after { words.new ≡ (fresh_database image.now words.old).database }
{
    filing::pozhdaghi_fresh(image, words, answer);
}

// A file replaced, with the index that the image asks for.
#[unsafe(no_mangle)]
pub extern "C" fn pozhdaghi_replace_file(
    image: &[u8],
    file: u32,
    asked: &[u64],
    work: &mut [u32],
    words: &mut [u32],
    answer: &mut [u64],
)
    ensures answer_after { answer.new ≡ written (length answer.old)
        (told_replacement (replace_asked image.now file asked.now work.old words.old).answer) }
    ensures work_after { work.new ≡ (replace_asked image.now file asked.now work.old words.old).work }
    ensures words_after { words.new ≡ (replace_asked image.now file asked.now work.old words.old).database }
{
    filing::pozhdaghi_replace_file(image, file, asked, work, words, answer);
}

// The alias set replaced, likewise.
#[unsafe(no_mangle)]
pub extern "C" fn pozhdaghi_replace_aliases(
    image: &[u8],
    asked: &[u64],
    work: &mut [u32],
    words: &mut [u32],
    answer: &mut [u64],
)
    ensures answer_after { answer.new ≡ written (length answer.old)
        (told_replacement (aliases_asked image.now asked.now work.old words.old).answer) }
    ensures work_after { work.new ≡ (aliases_asked image.now asked.now work.old words.old).work }
    ensures words_after { words.new ≡ (aliases_asked image.now asked.now work.old words.old).database }
{
    filing::pozhdaghi_replace_aliases(image, asked, work, words, answer);
}

// 0; or the refusal. The old words are only read.
#[unsafe(no_mangle)]
pub extern "C" fn pozhdaghi_convert(old: &[u32], new: &mut [u32], answer: &mut [u64])
    ensures answer_after { answer.new ≡ written (length answer.old) (told_conversion (convert_database old.now new.old).answer) }
    ensures after { new.new ≡ (convert_database old.now new.old).written }
{
    filing::pozhdaghi_convert(old, new, answer);
}

// 0 and the number of live slots; or the refusal. The list has the old and the new number of each.
#[unsafe(no_mangle)]
pub extern "C" fn pozhdaghi_compact(words: &mut [u32], list: &mut [u32], answer: &mut [u64])
    ensures answer_after { answer.new ≡ written (length answer.old) (told_compaction (compact_database words.old list.old).answer) }
    ensures words_after { words.new ≡ (compact_database words.old list.old).database }
    ensures list_after { list.new ≡ (compact_database words.old list.old).list }
{
    filing::pozhdaghi_compact(words, list, answer);
}

// The place and the length of the part of the words that holds the edges of a partial path; 0 and 0 for an empty part.
#[unsafe(no_mangle)]
pub extern "C" fn pozhdaghi_lookup(words: &[u32], number: u32, answer: &mut [u64])
    ensures { answer.new ≡ written (length answer.old) (told_part (lookup_of number words.now)) }
{
    filing::pozhdaghi_lookup(words, number, answer);
}
