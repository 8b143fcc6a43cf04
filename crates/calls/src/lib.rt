// Calls: their numbers and arguments, the statuses, and for each call the first reason that refuses it.

#![tactic(auto)]

pub mod call;
pub mod held;
pub mod message;
pub mod refusal;
pub mod status;
