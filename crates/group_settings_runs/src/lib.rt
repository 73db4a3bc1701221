// Runs of a group that is begun from group settings (document 01, demand 3; document 02, E8 and E13): the laws are in proofs/.
#![tactic(auto)]

pub mod catching_up;
pub mod registers;
