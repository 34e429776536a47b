// What the public calls answer: a value, or why the call was turned back. Document 01's number and values for each case stand in specs/Told.antt.
use crate::graph::{EdgeId, Node, NodeId};
use crate::refusal::{
    DatabaseRefusal, ImageRefusal, LinearRefusal, PartialPathRefusal, ReplayRefusal, SearchRefusal,
};
use crate::search::{PartialPathStats, SearchStats};

// A call that is turned back by its image, or by what it asks of it.
#[derive(Clone, Copy)]
pub enum TurnedBack<R> {
    Image(ImageRefusal),
    Refused(R),
}

// What an accepted graph counts.
#[derive(Clone, Copy)]
pub struct Counts {
    pub files: u32,
    pub nodes: u32,
    pub edges: u32,
}

// The check of an image: the counts of an accepted graph, or 1 to 5.
pub type Checked = Result<Counts, ImageRefusal>;

// Replay. The path itself stands beside this answer.
pub type Replayed = Result<(), TurnedBack<ReplayRefusal>>;

// Completeness and shadowing: does it hold?
pub type Judgement = Result<bool, TurnedBack<ReplayRefusal>>;

// What a search that has ended tells: how many paths stand in the result slots, and its statistics.
#[derive(Clone, Copy)]
pub struct Resolved {
    pub paths: u64,
    pub stats: SearchStats,
}

// Direct search lends no database, so it never answers Database.
#[derive(Clone, Copy)]
pub enum ResolutionRefusal {
    Image(ImageRefusal),
    Database(DatabaseRefusal),
    Refused(SearchRefusal),
}

// Direct and stitched search.
pub type Resolution = Result<Resolved, ResolutionRefusal>;

// Linear search.
pub type LinearResolution = Result<Resolved, TurnedBack<LinearRefusal>>;

// Under 3 words are 35.
#[derive(Clone, Copy)]
pub enum CreationRefusal {
    Image(ImageRefusal),
    Malformed,
}

// A fresh database.
pub type Creation = Result<(), CreationRefusal>;

// 35 and 34, then 21 and the computation, then 33.
#[derive(Clone, Copy)]
pub enum ReplacementRefusal {
    Image(ImageRefusal),
    Database(DatabaseRefusal),
    Refused(PartialPathRefusal),
    Full,
}

// A file replaced.
pub type Replacement = Result<PartialPathStats, ReplacementRefusal>;

// 10 is told as the path rules tell it; 37 has its case.
#[derive(Clone, Copy)]
pub enum FindingRefusal {
    Image(ImageRefusal),
    NotDefinition(NodeId),
    Refused(SearchRefusal),
}

// A name for a definition: the reference whose path stands in the first result slot, or none.
pub type Finding = Result<Option<NodeId>, FindingRefusal>;

// A tally by length. The numbers themselves stand beside this answer; all are 0 where it is refused.
pub type Tallying = Result<(), TurnedBack<SearchRefusal>>;

// 1 to 5 of the given image, 38 with the place there of the first record whose symbol does not fit, 2, told as Image, where the result would be too long, and 32.
#[derive(Clone, Copy)]
pub enum RewritingRefusal {
    Image(ImageRefusal),
    WideSymbol { place: u32 },
    NoRoom,
}

// An image rewritten in another version: how many bytes were written.
pub type Rewriting = Result<u32, RewritingRefusal>;

// 35, then 33 for too few words or slots, then 39 for a live path over the bound.
#[derive(Clone, Copy)]
pub enum ConversionRefusal {
    Malformed,
    Full,
    TooLong,
}

// A database of longer slots converted.
pub type Conversion = Result<(), ConversionRefusal>;

// 35, then 32 for a list of under two words a live slot.
#[derive(Clone, Copy)]
pub enum CompactionRefusal {
    Malformed,
    ListTooShort,
}

// A database compacted: how many slots are live.
pub type Compaction = Result<u32, CompactionRefusal>;

// 40 above the bound on expansions.
#[derive(Clone, Copy)]
pub enum EntryRefusal {
    TooGreat,
}

// A count entered into the window over the last searches.
pub type Entered = Result<(), EntryRefusal>;

// What the window reports: the sum of its entries, and the greatest of them.
#[derive(Clone, Copy)]
pub struct Trend {
    pub sum: u64,
    pub greatest: u32,
}

// The definitions that the returned paths of a search end at.
#[derive(Clone, Copy)]
pub enum Definitions {
    Nothing,
    One(NodeId),
    Several,
}

// The definitions that were found for a cash flow, beside what the search from its reference gives.
#[derive(Clone, Copy)]
pub struct Flowed {
    pub definitions: Definitions,
    pub paths: u64,
    pub stats: SearchStats,
}

// 1 to 5 of the image, then 41 for the ISIN, 42 for the rows, 43 for a key that no row has, then the refusals of the search.
#[derive(Clone, Copy)]
pub enum FlowRefusal {
    Image(ImageRefusal),
    MalformedIsin,
    Disordered,
    UnknownKey,
    Refused(SearchRefusal),
}

// A cash flow of a directory resolved.
pub type Flow = Result<Flowed, FlowRefusal>;

// A record read by its number: a node that is not known is 10, an edge 12.
#[derive(Clone, Copy)]
pub enum ReadingRefusal<N> {
    Image(ImageRefusal),
    Unknown(N),
}

// A node's record.
pub type NodeReading = Result<Node, ReadingRefusal<NodeId>>;

// The ends of an edge and its precedence.
#[derive(Clone, Copy)]
pub struct LiveEdge {
    pub source: NodeId,
    pub target: NodeId,
    pub precedence: i32,
}

// An edge's record.
pub type EdgeReading = Result<LiveEdge, ReadingRefusal<EdgeId>>;

// 10 for a node that is not known, 32 where the area has fewer words than there are numbers.
#[derive(Clone, Copy)]
pub enum ListingRefusal {
    Image(ImageRefusal),
    Unknown(NodeId),
    NoRoom,
}

// Numbers listed in a lent area: how many.
pub type Listing = Result<u32, ListingRefusal>;
