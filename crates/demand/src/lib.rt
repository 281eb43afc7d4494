// Demand 3: when the definitions of two files agree, lists of calls, and the theorem; no code.
#![tactic(auto)]
