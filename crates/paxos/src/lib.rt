// Paxos Made Simple, as definitions and theorems: specs/ has the paper's rules, and no program stands here.
#![tactic(auto)]
