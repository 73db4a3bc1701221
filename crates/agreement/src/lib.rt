// Agreement of a group over lists of calls: definitions in specs/, the theorem in proofs/, and no program.
#![tactic(auto)]
