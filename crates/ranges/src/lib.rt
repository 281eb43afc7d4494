// The ranges of definitions and names in an accepted text (document 02, Change 8). Definitions and proofs alone: no code.
#![tactic(auto)]
