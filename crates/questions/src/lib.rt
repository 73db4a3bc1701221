// What is decided of a call, and which answers are only counted, found by the numbers of the call and of the core.
#![tactic(auto)]

pub mod counted;
pub mod decided;
