// What a search is told and what it tells: document 01, "Budget and frontier" and "Answer".
#[derive(Clone, Copy)]
pub enum SearchOrder {
    DepthFirst,
    BreadthFirst,
}

// A limit is a number or absent.
pub type Limit = Option<u64>;

// On a path's length, on expansions (the path count), and on the complete paths that are kept.
#[derive(Clone, Copy)]
pub struct SearchLimits {
    pub length: Limit,
    pub expansions: Limit,
    pub complete: Limit,
}

#[derive(Clone, Copy)]
pub struct SearchStats {
    pub expanded: u64,
    pub complete: u64,
    pub rejected: u64,
    pub cycles: u64,
    pub length_limited: bool,
    pub count_limited: bool,
    pub complete_limited: bool,
    // the greatest number of paths that ever waited together; linear search has none
    pub waited: u64,
}

#[derive(Clone, Copy)]
pub struct PartialPathStats {
    pub expanded: u64,
    pub found: u64,
    pub cycles: u64,
    pub length_limited: bool,
    pub count_limited: bool,
    pub waited: u64,
}
