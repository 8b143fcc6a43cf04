// The records of semaphores, queues and event flags groups. None of them knows a thread.

#![tactic(auto)]

pub mod group;
pub mod queue;
pub mod semaphore;
