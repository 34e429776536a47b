// Each refusal as document 01 tells it, "Turned back": its number, then the values that are returned with it. The table is semantics/specs/Told.antt.
ghost use Rattle.std.specs.Prelude.{◌≡◌, [], ◌∷◌};
ghost use Rattle.semantics.specs.Told.{told_image, told_path, told_replay_refusal, told_search, told_linear, told_partial, told_database};
ghost use Rattle.told.specs.Numbers.{numbers_of};

use semantics::graph::NodeId;
use semantics::refusal::{
    DatabaseRefusal, ImageRefusal, LinearRefusal, PartialPathRefusal, PathRefusal, ReplayRefusal,
    SearchRefusal,
};

// A number and up to two values; count is how many of the three there are, and the others are 0.
// Kept: no heap, a rule of the project: the numbers stand in fixed words beside their count, as callers copy them.
#[derive(Clone, Copy, Debug, PartialEq, Eq)]
pub struct Told {
    pub count: u32,
    pub number: u32,
    pub first: u32,
    pub second: u32,
}

fn bare(number: u32) -> Told
    ensures { numbers_of result ≡ number ∷ [] }
{
    Told {
        count: 1,
        number,
        first: 0,
        second: 0,
    }
}

fn valued(number: u32, value: u32) -> Told
    ensures { numbers_of result ≡ number ∷ value ∷ [] }
{
    Told {
        count: 2,
        number,
        first: value,
        second: 0,
    }
}

fn sources(expected: NodeId, actual: NodeId) -> Told
    ensures { numbers_of result ≡ 13 ∷ expected.0 ∷ actual.0 ∷ [] }
{
    Told {
        count: 3,
        number: 13,
        first: expected.0,
        second: actual.0,
    }
}

// 1 to 5, the last two with the record's place.
impl From<ImageRefusal> for Told {
    ghost from_gives = { λ refusal told. numbers_of told ≡ told_image refusal };

    fn from(refusal: ImageRefusal) -> Told {
        match refusal {
            ImageRefusal::Version => bare(1),
            ImageRefusal::Length => bare(2),
            ImageRefusal::Counts => bare(3),
            ImageRefusal::Record { place } => valued(4, place),
            ImageRefusal::Reference { place } => valued(5, place),
        }
    }
}

// 10 to 19, with a node, an edge, or two nodes.
impl From<PathRefusal> for Told {
    ghost from_gives = { λ refusal told. numbers_of told ≡ told_path refusal };

    fn from(refusal: PathRefusal) -> Told {
        match refusal {
            PathRefusal::UnknownNode(node) => valued(10, node.0),
            PathRefusal::NotReference(node) => valued(11, node.0),
            PathRefusal::UnknownEdge(edge) => valued(12, edge.0),
            PathRefusal::IncorrectSource { expected, actual } => sources(expected, actual),
            PathRefusal::EmptySymbolStack(node) => valued(14, node.0),
            PathRefusal::IncorrectPoppedSymbol(node) => valued(15, node.0),
            PathRefusal::UnexpectedAttachedScopes(node) => valued(16, node.0),
            PathRefusal::MissingAttachedScopes(node) => valued(17, node.0),
            PathRefusal::EmptyScopeStack(node) => valued(18, node.0),
            PathRefusal::UnknownAttachedScope(node) => valued(19, node.0),
        }
    }
}

impl From<ReplayRefusal> for Told {
    ghost from_gives = { λ refusal told. numbers_of told ≡ told_replay_refusal refusal };

    fn from(refusal: ReplayRefusal) -> Told {
        match refusal {
            ReplayRefusal::Path(r) => Told::from(r),
            ReplayRefusal::TooLong => bare(30),
        }
    }
}

impl From<SearchRefusal> for Told {
    ghost from_gives = { λ refusal told. numbers_of told ≡ told_search refusal };

    fn from(refusal: SearchRefusal) -> Told {
        match refusal {
            SearchRefusal::Path(r) => Told::from(r),
            SearchRefusal::TooLong => bare(30),
            SearchRefusal::NoWaitingSlot => bare(31),
            SearchRefusal::NoResultSlot => bare(32),
            SearchRefusal::TooManyExpansions => bare(36),
        }
    }
}

impl From<LinearRefusal> for Told {
    ghost from_gives = { λ refusal told. numbers_of told ≡ told_linear refusal };

    fn from(refusal: LinearRefusal) -> Told {
        match refusal {
            LinearRefusal::Path(r) => Told::from(r),
            LinearRefusal::MultipleEdges(node) => valued(20, node.0),
            LinearRefusal::TooLong => bare(30),
            LinearRefusal::NoResultSlot => bare(32),
            LinearRefusal::TooManyExpansions => bare(36),
        }
    }
}

impl From<PartialPathRefusal> for Told {
    ghost from_gives = { λ refusal told. numbers_of told ≡ told_partial refusal };

    fn from(refusal: PartialPathRefusal) -> Told {
        match refusal {
            PartialPathRefusal::UnknownFile(file) => valued(21, file.0),
            PartialPathRefusal::TooLong => bare(30),
            PartialPathRefusal::NoWaitingSlot => bare(31),
            PartialPathRefusal::TooManyExpansions => bare(36),
        }
    }
}

impl From<DatabaseRefusal> for Told {
    ghost from_gives = { λ refusal told. numbers_of told ≡ told_database refusal };

    fn from(refusal: DatabaseRefusal) -> Told {
        match refusal {
            DatabaseRefusal::Malformed => bare(35),
            DatabaseRefusal::Outgrown => bare(34),
        }
    }
}

// Document 02's 37: the node is live and no definition.
pub fn not_definition(node: NodeId) -> Told
    ensures { numbers_of result ≡ 37 ∷ node.0 ∷ [] }
{
    valued(37, node.0)
}

// Document 02's 38: a symbol that does not fit 32 bits.
pub fn wide_symbol(place: u32) -> Told
    ensures { numbers_of result ≡ 38 ∷ place ∷ [] }
{
    valued(38, place)
}

// 32 of an area of bytes.
pub fn no_room() -> Told
    ensures { numbers_of result ≡ 32 ∷ [] }
{
    bare(32)
}
