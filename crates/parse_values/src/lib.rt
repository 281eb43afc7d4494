// Types and constant values: rico's parser/types.rs and parser/values.rs.
// `depth` falls with each container and `parent` changes with each node, so both are handed on, and are no fields of the parser; a struct of both would be made anew at each step.
#![tactic(auto)]

pub mod types;
pub mod values;
