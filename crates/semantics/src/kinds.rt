// The kinds of records, as they stand in an image and in the index of a loaded graph: document 01, "Graph image".
// Kept: numbers. A kind is a byte of an image and a word of the index; by its kind a record is a `graph::Node` or `Edge`, and an enum of kinds would be the same cases once more.

// Nodes. Root and jump stand below the first kind that has a file.
pub const REMOVED: u32 = 0;

pub const ROOT: u32 = 1;

pub const JUMP_TO_SCOPE: u32 = 2;

pub const SCOPE: u32 = 3;

pub const PUSH: u32 = 4;

pub const POP: u32 = 5;

pub const PUSH_SCOPED: u32 = 6;

pub const POP_SCOPED: u32 = 7;

pub const DROP_SCOPES: u32 = 8;

// Edges.
pub const LIVE: u32 = 1;
