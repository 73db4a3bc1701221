// Registers of the members of a group run (document 02, E6; document 01, demand 3): the laws are in proofs/Agreeing.antt.
#![tactic(auto)]
