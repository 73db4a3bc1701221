// Runs of a group over lists of calls: definitions in specs/, the theorems in proofs/, and no program.
#![tactic(auto)]
