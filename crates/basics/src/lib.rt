// Laws of tests (proofs/Tests.antt) and membership of a list (specs/Lists.antt) for the other crates. No program stands here.
#![tactic(auto)]

pub mod elements;
pub mod refusals;
pub mod sets;
pub mod tables;
