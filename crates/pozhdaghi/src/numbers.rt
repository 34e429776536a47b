// An answer as numbers, written into the caller's area. What each case of an answer is told by: semantics/specs/Told.antt.
ghost use Rattle.std.specs.Prelude.{ℕ, ◌≡◌, ◌≤◌, List, [], ◌∷◌, ◌++◌, length, get_or};
ghost use Rattle.semantics.specs.Written.{written};
ghost use Rattle.semantics.specs.Told.{told_flag, told_stats, told_partial_stats, told_node, many_definitions, one_definition};
ghost use Rattle.semantics.specs.Told.{told_checked, told_replayed, told_judgement, told_resolution, told_linear_resolution, told_compaction, told_conversion, told_creation, told_replacement, told_finding, told_rewriting};
ghost use Rattle.semantics.specs.Told.{told_entered, told_trend, told_flow, told_node_reading, told_edge_reading, told_listing};
ghost use Rattle.told.specs.Numbers.{numbers_of};
ghost use Rattle.pozhdaghi.specs.Written as Longest;

use semantics::answer::{
    Checked, Compaction, CompactionRefusal, Conversion, ConversionRefusal, Creation,
    CreationRefusal, Definitions, EdgeReading, Entered, EntryRefusal, Finding, FindingRefusal,
    Flow, FlowRefusal, Flowed, Judgement, LinearResolution, Listing, ListingRefusal, LiveEdge,
    NodeReading, ReadingRefusal, Replacement, ReplacementRefusal, Replayed, Resolution,
    ResolutionRefusal, Resolved, Rewriting, RewritingRefusal, Trend, TurnedBack,
};
use semantics::graph::Node;
use semantics::kinds;
use semantics::search::{PartialPathStats, SearchStats};
use told::refusal;
use told::refusal::Told;
use words::bytes;

// What a search tells: 0, the number of paths, four counts, three flags and the waiting figure.
const SEARCH: usize = 10;

// The longest answer but a tally's: what a search tells, whether a cash flow has one definition, and that definition. Nothing else names this number.
const MOST: usize = SEARCH + 2;

// A node's record: 0, its kind, file, symbol, attached scope and flag.
const RECORD: usize = 6;

// What a replacement tells: 0, three counts, two flags and the waiting figure.
const REPLACED: usize = 7;

// The number at a place; 0 behind the last.
pub(crate) fn number(numbers: &[u64], at: usize) -> u64
    ensures { result ≡ get_or numbers.now at 0 }
{
    numbers.get(at).copied().unwrap_or(0)
}

// As many as fit, and zeros behind them.
pub(crate) fn write(numbers: &[u64], answer: &mut [u64])
    ensures { answer.new ≡ written (length answer.old) numbers.now }
{
    for (i, word) in answer.iter_mut().enumerate() {
        *word = number(numbers, i);
    }
}

// One number alone.
fn bare(number: u64, answer: &mut [u64])
    ensures { answer.new ≡ written (length answer.old) (number ∷ []) }
{
    write(&[number], answer);
}

// An answer that is told by numbers, of which the longest but a tally's has `MOST`.
pub(crate) trait Tell {
    ghost told: { Self → List ℕ };

    fn tell(self, answer: &mut [u64])
        ensures words { answer.new ≡ written (length answer.old) (told self) }
        ensures few { length (told self) ≤ Longest.MOST };
}

fn flag(set: bool) -> u64
    ensures { result ≡ told_flag set }
{
    u64::from(set)
}

// A refusal has a number and at most two values.
impl Tell for Told {
    ghost told = { numbers_of };

    fn tell(self, answer: &mut [u64]) {
        let numbers = [
            u64::from(self.number),
            u64::from(self.first),
            u64::from(self.second),
        ];
        match numbers.get(..self.count as usize) {
            Some(counted) => write(counted, answer),
            None => write(&numbers, answer),
        }
    }
}

fn record(kind: u32, file: u32, symbol: u64, scope: u32, marked: bool) -> [u64; RECORD]
    ensures { result ≡ 0 ∷ kind ∷ file ∷ symbol ∷ scope ∷ told_flag marked ∷ [] }
{
    [
        0,
        u64::from(kind),
        u64::from(file),
        symbol,
        u64::from(scope),
        flag(marked),
    ]
}

fn node_record(node: Node) -> [u64; RECORD]
    ensures { result ≡ 0 ∷ told_node node }
{
    match node {
        Node::Removed => record(kinds::REMOVED, 0, 0, 0, false),
        Node::Root => record(kinds::ROOT, 0, 0, 0, false),
        Node::JumpToScope => record(kinds::JUMP_TO_SCOPE, 0, 0, 0, false),
        Node::Scope { file, exported } => record(kinds::SCOPE, file.0, 0, 0, exported),
        Node::Push {
            file,
            symbol,
            reference,
        } => record(kinds::PUSH, file.0, symbol, 0, reference),
        Node::Pop {
            file,
            symbol,
            definition,
        } => record(kinds::POP, file.0, symbol, 0, definition),
        Node::PushScoped {
            file,
            symbol,
            scope,
            reference,
        } => record(kinds::PUSH_SCOPED, file.0, symbol, scope.0, reference),
        Node::PopScoped {
            file,
            symbol,
            definition,
        } => record(kinds::POP_SCOPED, file.0, symbol, 0, definition),
        Node::DropScopes { file } => record(kinds::DROP_SCOPES, file.0, 0, 0, false),
    }
}

fn replaced(stats: PartialPathStats) -> [u64; REPLACED]
    ensures { result ≡ 0 ∷ told_partial_stats stats }
{
    [
        0,
        stats.expanded,
        stats.found,
        stats.cycles,
        flag(stats.length_limited),
        flag(stats.count_limited),
        stats.waited,
    ]
}

// What a search tells, and behind it what is told of the definitions.
fn resolved(paths: u64, stats: SearchStats, many: u64, one: u64) -> [u64; MOST]
    ensures { result ≡ 0 ∷ paths ∷ (told_stats stats ++ many ∷ one ∷ []) }
{
    [
        0,
        paths,
        stats.expanded,
        stats.complete,
        stats.rejected,
        stats.cycles,
        flag(stats.length_limited),
        flag(stats.count_limited),
        flag(stats.complete_limited),
        stats.waited,
        many,
        one,
    ]
}

fn tell_found(paths: u64, stats: SearchStats, answer: &mut [u64])
    ensures { answer.new ≡ written (length answer.old) (0 ∷ paths ∷ told_stats stats) }
{
    let numbers = resolved(paths, stats, 0, 0);
    write(&numbers[..SEARCH], answer);
}

fn tell_definitions(definitions: Definitions, paths: u64, stats: SearchStats, answer: &mut [u64])
    ensures { answer.new ≡ written (length answer.old) (0 ∷ paths ∷ (told_stats stats ++ many_definitions definitions ∷ one_definition definitions ∷ [])) }
{
    match definitions {
        Definitions::Nothing => write(&resolved(paths, stats, 0, 0), answer),
        Definitions::One(node) => write(&resolved(paths, stats, 1, u64::from(node.0)), answer),
        Definitions::Several => write(&resolved(paths, stats, 2, 0), answer),
    }
}

impl Tell for Checked {
    ghost told = { told_checked };

    fn tell(self, answer: &mut [u64]) {
        match self {
            Ok(counts) => {
                write(
                    &[
                        0,
                        u64::from(counts.files),
                        u64::from(counts.nodes),
                        u64::from(counts.edges),
                    ],
                    answer,
                )
            },
            Err(r) => Told::from(r).tell(answer),
        }
    }
}

impl Tell for Replayed {
    ghost told = { told_replayed };

    fn tell(self, answer: &mut [u64]) {
        match self {
            Ok(()) => bare(0, answer),
            Err(TurnedBack::Image(r)) => Told::from(r).tell(answer),
            Err(TurnedBack::Refused(r)) => Told::from(r).tell(answer),
        }
    }
}

impl Tell for Judgement {
    ghost told = { told_judgement };

    fn tell(self, answer: &mut [u64]) {
        match self {
            Ok(holds) => write(&[0, flag(holds)], answer),
            Err(TurnedBack::Image(r)) => Told::from(r).tell(answer),
            Err(TurnedBack::Refused(r)) => Told::from(r).tell(answer),
        }
    }
}

impl Tell for Resolution {
    ghost told = { told_resolution };

    fn tell(self, answer: &mut [u64]) {
        match self {
            Ok(Resolved { paths, stats }) => tell_found(paths, stats, answer),
            Err(ResolutionRefusal::Image(r)) => Told::from(r).tell(answer),
            Err(ResolutionRefusal::Database(r)) => Told::from(r).tell(answer),
            Err(ResolutionRefusal::Refused(r)) => Told::from(r).tell(answer),
        }
    }
}

impl Tell for LinearResolution {
    ghost told = { told_linear_resolution };

    fn tell(self, answer: &mut [u64]) {
        match self {
            Ok(Resolved { paths, stats }) => tell_found(paths, stats, answer),
            Err(TurnedBack::Image(r)) => Told::from(r).tell(answer),
            Err(TurnedBack::Refused(r)) => Told::from(r).tell(answer),
        }
    }
}

impl Tell for Flow {
    ghost told = { told_flow };

    fn tell(self, answer: &mut [u64]) {
        match self {
            Ok(
                Flowed {
                    definitions,
                    paths,
                    stats,
                },
            ) => tell_definitions(definitions, paths, stats, answer),
            Err(FlowRefusal::Image(r)) => Told::from(r).tell(answer),
            Err(FlowRefusal::MalformedIsin) => bare(41, answer),
            Err(FlowRefusal::Disordered) => bare(42, answer),
            Err(FlowRefusal::UnknownKey) => bare(43, answer),
            Err(FlowRefusal::Refused(r)) => Told::from(r).tell(answer),
        }
    }
}

impl Tell for Finding {
    ghost told = { told_finding };

    fn tell(self, answer: &mut [u64]) {
        match self {
            Ok(Some(reference)) => write(&[0, 1, u64::from(reference.0)], answer),
            Ok(None) => write(&[0, 0], answer),
            Err(FindingRefusal::Image(r)) => Told::from(r).tell(answer),
            Err(FindingRefusal::NotDefinition(node)) => refusal::not_definition(node).tell(answer),
            Err(FindingRefusal::Refused(r)) => Told::from(r).tell(answer),
        }
    }
}

impl Tell for Rewriting {
    ghost told = { told_rewriting };

    fn tell(self, answer: &mut [u64]) {
        match self {
            Ok(length) => write(&[0, u64::from(length)], answer),
            Err(RewritingRefusal::Image(r)) => Told::from(r).tell(answer),
            Err(RewritingRefusal::WideSymbol { place }) => refusal::wide_symbol(place).tell(answer),
            Err(RewritingRefusal::NoRoom) => refusal::no_room().tell(answer),
        }
    }
}

impl Tell for NodeReading {
    ghost told = { told_node_reading };

    fn tell(self, answer: &mut [u64]) {
        match self {
            Ok(node) => write(&node_record(node), answer),
            Err(ReadingRefusal::Image(r)) => Told::from(r).tell(answer),
            Err(ReadingRefusal::Unknown(n)) => write(&[10, u64::from(n.0)], answer),
        }
    }
}

impl Tell for EdgeReading {
    ghost told = { told_edge_reading };

    fn tell(self, answer: &mut [u64]) {
        match self {
            Ok(
                LiveEdge {
                    source,
                    target,
                    precedence,
                },
            ) => {
                let number = bytes::unsigned(precedence);
                write(
                    &[
                        0,
                        u64::from(source.0),
                        u64::from(target.0),
                        u64::from(number),
                    ],
                    answer,
                )
            },
            Err(ReadingRefusal::Image(r)) => Told::from(r).tell(answer),
            Err(ReadingRefusal::Unknown(e)) => write(&[12, u64::from(e.0)], answer),
        }
    }
}

impl Tell for Listing {
    ghost told = { told_listing };

    fn tell(self, answer: &mut [u64]) {
        match self {
            Ok(count) => write(&[0, u64::from(count)], answer),
            Err(ListingRefusal::Image(r)) => Told::from(r).tell(answer),
            Err(ListingRefusal::Unknown(n)) => write(&[10, u64::from(n.0)], answer),
            Err(ListingRefusal::NoRoom) => refusal::no_room().tell(answer),
        }
    }
}

impl Tell for Conversion {
    ghost told = { told_conversion };

    fn tell(self, answer: &mut [u64]) {
        match self {
            Ok(()) => bare(0, answer),
            Err(ConversionRefusal::Malformed) => bare(35, answer),
            Err(ConversionRefusal::Full) => bare(33, answer),
            Err(ConversionRefusal::TooLong) => bare(39, answer),
        }
    }
}

impl Tell for Compaction {
    ghost told = { told_compaction };

    fn tell(self, answer: &mut [u64]) {
        match self {
            Ok(live) => write(&[0, u64::from(live)], answer),
            Err(CompactionRefusal::Malformed) => bare(35, answer),
            Err(CompactionRefusal::ListTooShort) => bare(32, answer),
        }
    }
}

impl Tell for Entered {
    ghost told = { told_entered };

    fn tell(self, answer: &mut [u64]) {
        match self {
            Ok(()) => bare(0, answer),
            Err(EntryRefusal::TooGreat) => bare(40, answer),
        }
    }
}

impl Tell for Creation {
    ghost told = { told_creation };

    fn tell(self, answer: &mut [u64]) {
        match self {
            Ok(()) => bare(0, answer),
            Err(CreationRefusal::Image(r)) => Told::from(r).tell(answer),
            Err(CreationRefusal::Malformed) => bare(35, answer),
        }
    }
}

impl Tell for Replacement {
    ghost told = { told_replacement };

    fn tell(self, answer: &mut [u64]) {
        match self {
            Ok(stats) => write(&replaced(stats), answer),
            Err(ReplacementRefusal::Image(r)) => Told::from(r).tell(answer),
            Err(ReplacementRefusal::Database(r)) => Told::from(r).tell(answer),
            Err(ReplacementRefusal::Refused(r)) => Told::from(r).tell(answer),
            Err(ReplacementRefusal::Full) => bare(33, answer),
        }
    }
}

impl Tell for Trend {
    ghost told = { told_trend };

    fn tell(self, answer: &mut [u64]) {
        write(&[self.sum, u64::from(self.greatest)], answer);
    }
}
