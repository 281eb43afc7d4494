// The IDL's IntConstant and DoubleConstant beside the token patterns: definitions and laws, no code.
#![tactic(auto)]
