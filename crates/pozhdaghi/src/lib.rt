// THE PUBLIC SURFACE. What is named here is offered; what is not is no public entry, whichever crate it stands in.
// For Rattle: the calls by name, with the contracts that they have where they stand, and the types that they speak of.
// On numbers and slices: `costs`, `directory`, `filing`, `naming`, `reading`, `records`, `searching`, `tallying` and `versions` have the same calls, each of which writes its answer as the numbers
// of semantics/specs/Told.antt into an area that the caller lends. The crate pozhdaghi_c exports them for Rust and C.
#![tactic(auto)]

mod asked;
pub mod costs;
pub mod directory;
pub mod filing;
pub mod naming;
mod numbers;
pub mod reading;
pub mod records;
pub mod searching;
pub mod tallying;
pub mod versions;

// The calls.
pub use compaction::compact::compact;
pub use conversion::convert::convert;
pub use database::fresh::fresh;
pub use database::lookup::lookup;
pub use direct_search::direct::{search as direct, search_recorded as direct_recorded};
pub use finding::name::find_name;
pub use flow_directory::directory::resolve as resolve_flow;
pub use linear_search::linear::{search as linear, search_recorded as linear_recorded};
pub use partial::replace::{replace_aliases, replace_file};
pub use path::judgement::{is_complete, shadows};
pub use path::path::step;
pub use path::replay::replay;
pub use readers::listing::{outgoing, references};
pub use readers::records::{edge, node};
pub use rewriting::rewrite::{narrow, widen};
pub use stitching::stitched::{search as stitched, search_recorded as stitched_recorded};
pub use storage::check::check;
pub use tally::lengths::tally;
pub use window::counts::{begin as begin_window, enter as enter_window, report as report_window};

// What they take and answer.
pub use path::replay::ReplayOutcome;
pub use semantics::answer::{
    Checked, Compaction, CompactionRefusal, Conversion, ConversionRefusal, Counts, Creation,
    CreationRefusal, Definitions, EdgeReading, Entered, EntryRefusal, Finding, FindingRefusal,
    Flow, FlowRefusal, Flowed, Judgement, LinearResolution, Listing, ListingRefusal, LiveEdge,
    NodeReading, ReadingRefusal, Replacement, ReplacementRefusal, Replayed, Resolution,
    ResolutionRefusal, Resolved, Rewriting, RewritingRefusal, Tallying, Trend, TurnedBack,
};
pub use semantics::graph::{EdgeId, FileId, Node, NodeId, PartialPathId};
pub use semantics::refusal::{
    DatabaseRefusal, ImageRefusal, LinearRefusal, PartialPathRefusal, PathRefusal, ReplayRefusal,
    SearchRefusal,
};
pub use semantics::replayed::{Path, Step};
pub use semantics::search::{Limit, PartialPathStats, SearchLimits, SearchOrder, SearchStats};
pub use tally::lengths::TallyOutcome;
