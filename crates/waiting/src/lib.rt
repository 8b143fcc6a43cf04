// What a thread waits for and holds meanwhile: the tests of one record, and the ticks of one wait.

#![tactic(auto)]

pub mod ends;
pub mod fit;
pub mod ticks;
