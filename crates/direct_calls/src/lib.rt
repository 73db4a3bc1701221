// Runs of a group whose hosts lend arrays: specs/Runs.antt has what they are, proofs/Runs.antt that demand 3 holds of them. That a call over arrays is the call on
// the shard that they stand for is in the contracts of direct and direct_fast. No program stands here.
#![tactic(auto)]
