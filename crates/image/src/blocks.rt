// The index of a loaded graph: blocks of words in one area, block n with the words of node n and of edge n.
// Document 01, "Graph image": the fields of the records. What the words mean stands in specs/Index.antt.
ghost use Rattle.std.specs.Prelude.{◌≡◌, ◌*◌, ◌<◌, length};
ghost use Rattle.image.specs.Index.{BLOCK, Blocks, Fresh, cell, put_node, put_edge};

pub const NODES: u32 = 2048;

pub const EDGES: u32 = 4096;

// The words of a number stand side by side, so that a short index is enough for small numbers and one test for a whole record.
pub const BLOCK: usize = 11;

pub const KIND: usize = 0;

pub const FLAG: usize = 1;

pub const FILE: usize = 2;

// A symbol has two words, the low one first.
pub const SYMBOL: usize = 3;

pub const SYMBOL_HIGH: usize = 4;

pub const SCOPE: usize = 5;

pub const FIRST: usize = 6;

pub const SOURCE: usize = 7;

pub const TARGET: usize = 8;

pub const NEXT: usize = 9;

pub const PRECEDENCE: usize = 10;

// An index for every image: there are more edges than nodes.
pub const INDEX: usize = BLOCK * EDGES as usize;

// An image with at most so many nodes and at most so many edges is small: its index is zeroed in a fraction of the time.
pub const FEW: u32 = 128;

pub const SMALL: usize = BLOCK * FEW as usize;

// No node, no edge, no link.
pub fn clear(index: &mut [u32])
    requires { Blocks index.old }
    ensures { Fresh index.new }
{
    index.fill(0);
}

pub(crate) fn put_node(
    index: &mut [u32],
    n: u32,
    kind: u32,
    flag: u32,
    file: u32,
    low: u32,
    high: u32,
    scope: u32,
)
    requires blocks { Blocks index.old }
    requires n_in_bounds { BLOCK * n < length index.old }
    ensures { index.new ≡ put_node n kind flag file low high scope index.old }
{
    let at = BLOCK * n as usize;
    index[at + KIND] = kind;
    index[at + FLAG] = flag;
    index[at + FILE] = file;
    index[at + SYMBOL] = low;
    index[at + SYMBOL_HIGH] = high;
    index[at + SCOPE] = scope;
}

// The source is stored plus 1: 0 is a removed edge.
pub(crate) fn put_edge(index: &mut [u32], e: u32, source: u32, target: u32, precedence: u32)
    requires blocks { Blocks index.old }
    requires e_in_bounds { BLOCK * e < length index.old }
    ensures { index.new ≡ put_edge e source target precedence index.old }
{
    let at = BLOCK * e as usize;
    index[at + SOURCE] = source;
    index[at + TARGET] = target;
    index[at + PRECEDENCE] = precedence;
}

// A word of block n; 0 behind the last block.
pub fn word(index: &[u32], row: usize, n: u32) -> u32
    requires blocks { Blocks index.now }
    requires row_bound { row < BLOCK }
    ensures { result ≡ cell index.now row n }
{
    let at = BLOCK * n as usize;
    if at < index.len() { index[at + row] } else { 0 }
}
