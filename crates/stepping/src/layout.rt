// Where the words of a step stand, counted from its place, behind the edge: what each is stands at semantics::replayed::Step.
pub const END: usize = 1;

pub const SYMBOLS: usize = 2;

pub const SCOPES: usize = 3;

// A symbol has two words, the low one first.
pub const SYMBOL: usize = 4;

pub const SYMBOL_HIGH: usize = 5;

pub const ATTACHED: usize = 6;

pub const BELOW: usize = 7;

pub const SCOPE: usize = 8;
