// A call of the engine with its sums, differences, look-ups and stores as parameters: definitions in specs/, the theorems in proofs/, and no program.
#![tactic(auto)]
