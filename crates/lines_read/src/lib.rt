// A line of recorded calls as what it asks for.
#![tactic(auto)]

pub mod line_calls;
pub mod line_states;
