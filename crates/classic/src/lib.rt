// Prepare and Accept in the modes without a fast path, and what the fast path takes over of them.
#![tactic(auto)]

pub mod accept;
pub mod prepare;
