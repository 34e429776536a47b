// 35 and 34: are the words a database, and may it be read with this graph.
// Document 01, "Turned back": rows 35 and 34, in that order. 35 looks at the live slots below those used, at their file, start and edge count.
ghost use Rattle.std.specs.Prelude.{◌≡◌, ◌<◌, ◌^◌, leb, length};
ghost use Rattle.semantics.specs.Graph.{Graph};
ghost use Rattle.semantics.specs.Limits.{base};
ghost use Rattle.semantics.specs.Lists.{and};
ghost use Rattle.semantics.specs.Database.{nodes_in, files_in, known_owners, sound, every, records, well_formed, check_database};
ghost use Rattle.database.specs.Checks.{inspected};
ghost use Rattle.database.specs.Records.{bounded, InWords, Whole, record_at};

use crate::layout;
use semantics::bounds;
use semantics::refusal::DatabaseRefusal;

// Which owners a database may name: the files, and nobody, whose set belongs to no file.
fn known(files: u32, owner: u32) -> bool
    ensures { result ≡ known_owners files owner }
{
    owner < files || owner == bounds::NOBODY
}

// 1 to so many edges.
fn counted(count: u32, most: usize) -> bool
    ensures { result ≡ and (leb 1 count) (leb count most) }
{
    1 <= count && count as usize <= most
}

// Record i is dead, or it has a known owner, a start below N and 1 to so many edges.
fn sound(words: &[u32], most: usize, i: usize) -> bool
    requires { InWords (bounded most) i words.now }
    ensures { result ≡ sound (bounded most) known_owners (nodes_in words.now) (files_in words.now) (record_at (bounded most) i words.now) }
{
    let owner = layout::owner(words, most, i);
    if owner < 1 {
        return true;
    }
    known(words[layout::FILES_AT], owner - 1)
        && layout::start(words, most, i) < words[layout::NODES_AT]
        && counted(layout::count(words, most, i), most)
}

// All used records are so.
// Kept: Whole is asked of words that most functions write next, as clear_file and take_back; a struct that borrows them would end at the first write.
fn all_sound(words: &[u32], most: usize) -> bool
    requires { Whole (bounded most) words.now }
    ensures { result ≡ every (sound (bounded most) known_owners (nodes_in words.now) (files_in words.now)) (records (bounded most) words.now) }
{
    let used = layout::number(words, layout::USED_AT);
    for i in 0..used {
        if !sound(words, most, i) {
            return false;
        }
    }
    true
}

// The words do not meet 35, for slots of so many edges.
pub fn well_formed(words: &[u32], most: usize) -> bool
    requires { most < 2 ^ 32 }
    ensures { result ≡ well_formed (bounded most) known_owners words.now }
{
    if words.len() < layout::FIRST_RECORD {
        return false;
    }
    if layout::capacity(words, most) < layout::number(words, layout::USED_AT) {
        return false;
    }
    all_sound(words, most)
}

// 35, then 34 for a graph of so many nodes and files.
pub fn check(words: &[u32], nodes: u32, files: u32) -> Result<(), DatabaseRefusal>
    ensures { (g : Graph) → nodes ≡ length g.nodes → files ≡ g.files → result ≡ inspected (check_database base known_owners g words.now) }
{
    if !well_formed(words, bounds::MAX_EDGES) {
        return Err(DatabaseRefusal::Malformed);
    }
    if nodes < words[layout::NODES_AT] || files < words[layout::FILES_AT] {
        return Err(DatabaseRefusal::Outgrown);
    }
    Ok(())
}
