// Calls as in Paxos Made Simple: definitions in specs/, theorems in proofs/, and no program.
#![tactic(auto)]
