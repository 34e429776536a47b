// Bytes of an image and areas of 32-bit words, as the caller lends them.
// Document 01, "Graph image": big-endian numbers; "Answer": result slots and waiting slots.
#![tactic(auto)]

pub mod bytes;
pub mod halves;
pub mod slots;
pub mod writing;
