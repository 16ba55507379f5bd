// The customer's demand 3 as a fact about the calls, and about the list that the program makes. Theorems only: no code stands here.
#![tactic(auto)]
