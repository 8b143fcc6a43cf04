// The tables as a block of bytes: the fields in the kernel's order, words with the least byte first, no gaps.
//
// The functions over a whole block take bytes of every number, and pass over those that are no block; those inside take parts of a known
// length.

#![tactic(auto)]

pub mod flags;
pub mod layout;
pub mod reading;
mod records;
pub mod writing;
