// Why a call is turned back: document 01, "Turned back". The numbers stand in specs/Told.antt.
use crate::graph::{EdgeId, FileId, NodeId};

// An image: 1 to 5, the last two with the record's place.
#[derive(Clone, Copy)]
pub enum ImageRefusal {
    Version,
    Length,
    Counts,
    Record { place: u32 },
    Reference { place: u32 },
}

// The path rules: 10 to 19.
#[derive(Clone, Copy)]
pub enum PathRefusal {
    UnknownNode(NodeId),
    NotReference(NodeId),
    UnknownEdge(EdgeId),
    IncorrectSource { expected: NodeId, actual: NodeId },
    EmptySymbolStack(NodeId),
    IncorrectPoppedSymbol(NodeId),
    UnexpectedAttachedScopes(NodeId),
    MissingAttachedScopes(NodeId),
    EmptyScopeStack(NodeId),
    UnknownAttachedScope(NodeId),
}

// A replay: 10 to 19 whole, 30.
#[derive(Clone, Copy)]
pub enum ReplayRefusal {
    Path(PathRefusal),
    TooLong,
}

// A direct or a stitched search: 10 to 19 whole, 30, 31, 32, 36.
#[derive(Clone, Copy)]
pub enum SearchRefusal {
    Path(PathRefusal),
    TooLong,
    NoWaitingSlot,
    NoResultSlot,
    TooManyExpansions,
}

// A linear search: 10 to 19 whole, 20 with the node, 30, 32, 36. Nothing waits, so there is no 31.
#[derive(Clone, Copy)]
pub enum LinearRefusal {
    Path(PathRefusal),
    MultipleEdges(NodeId),
    TooLong,
    NoResultSlot,
    TooManyExpansions,
}

// The partial paths of a file: 21, 30, 31, 36.
#[derive(Clone, Copy)]
pub enum PartialPathRefusal {
    UnknownFile(FileId),
    TooLong,
    NoWaitingSlot,
    TooManyExpansions,
}

// Database words that are lent to be read: 35, 34.
#[derive(Clone, Copy)]
pub enum DatabaseRefusal {
    Malformed,
    Outgrown,
}
