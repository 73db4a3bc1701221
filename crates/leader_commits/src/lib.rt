// When the leader of a MultiPaxos slot commits: definitions in specs/, the theorem in proofs/, and no program.
#![tactic(auto)]
