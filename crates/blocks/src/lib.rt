// Block pools: their records, and the view of a block in a lent area. They know no thread.

#![tactic(auto)]

pub mod pool;
pub mod view;
