// The marked instances of document 01: specs/Starred.antt has the table and its theorem, and no program stands here.
#![tactic(auto)]
