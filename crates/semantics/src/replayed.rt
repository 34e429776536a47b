// A replayed path by value, as it is handed to a caller: document 01, "Path". What its numbers mean stands in specs/ReplayedPaths.antt.
use crate::bounds::{MAX_EDGES, STEPS_WORDS};

// A step of a path: step 0 is the reference, and each edge makes one more. Both stacks are chains of cells: cell 0 is none, cell j + 1 is what step j made.
#[derive(Clone, Copy)]
pub struct Step {
    // the edge that was appended, and the node where the path stands behind it
    pub edge: u32,
    pub end: u32,
    // the top cells of both stacks
    pub symbols: u32,
    pub scopes: u32,
    // the cell that this step made: a symbol, the scopes attached to it, the symbol below; a scope, on the scope stack
    pub symbol: u64,
    pub attached: u32,
    pub below: u32,
    pub scope: u32,
}

// "in a fixed array": the edges. What both stacks hold stands in the steps, as inside the searches.
// Kept: an array with its count beside it, document 01's "in a fixed array".
#[derive(Clone, Copy)]
pub struct Path {
    // the reference, the node where the path stands, and how many edges it has
    pub start: u32,
    pub end: u32,
    pub count: u32,
    // its edges, and which of them are followed by a jump step
    pub edges: [u32; MAX_EDGES],
    pub jumps: [bool; MAX_EDGES],
    // a step for the reference and for each edge
    pub steps: [u32; STEPS_WORDS],
}
