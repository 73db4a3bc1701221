// Lists of commits of a group run, joined: the laws are in proofs/.
#![tactic(auto)]
