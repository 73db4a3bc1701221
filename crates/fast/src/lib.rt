// Answers on the fast path, in EPaxos and in SwiftPaxos.
#![tactic(auto)]

pub mod epaxos;
pub mod swift;
