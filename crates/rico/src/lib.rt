// What rico does where document 02 has this port do otherwise, and how far the two are then equal: definitions and laws, no code.
#![tactic(auto)]
