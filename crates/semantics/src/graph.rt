// Numbers of four separate kinds, and the records of a graph: document 01, "Graph image".
#[derive(Clone, Copy)]
pub struct NodeId(pub u32);

#[derive(Clone, Copy)]
pub struct EdgeId(pub u32);

#[derive(Clone, Copy)]
pub struct FileId(pub u32);

#[derive(Clone, Copy)]
pub struct PartialPathId(pub u32);

// The nodes that lack a file: root is node 0, jump is node 1.
pub const ROOT: u32 = 0;

pub const JUMP: u32 = 1;

// A node record by its kind, 0 to 8.
#[derive(Clone, Copy)]
pub enum Node {
    Removed,
    Root,
    JumpToScope,
    Scope {
        file: FileId,
        exported: bool,
    },
    Push {
        file: FileId,
        symbol: u64,
        reference: bool,
    },
    Pop {
        file: FileId,
        symbol: u64,
        definition: bool,
    },
    PushScoped {
        file: FileId,
        symbol: u64,
        scope: NodeId,
        reference: bool,
    },
    PopScoped {
        file: FileId,
        symbol: u64,
        definition: bool,
    },
    DropScopes {
        file: FileId,
    },
}

// An edge record by its kind, 0 or 1.
// Kept: no Option, as a removed record is a kind of its own, 0, of edges as of nodes, and both are read side by side.
#[derive(Clone, Copy)]
pub enum Edge {
    Removed,
    Live {
        source: NodeId,
        target: NodeId,
        precedence: i32,
    },
}
