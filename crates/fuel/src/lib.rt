// The constant of the loop that every list is read by is no part of what has to be believed: definitions and laws, no code.
#![tactic(auto)]
