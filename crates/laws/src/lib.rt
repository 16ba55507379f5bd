// Theorems about the definitions of the crates below; no code stands here.
#![tactic(auto)]
