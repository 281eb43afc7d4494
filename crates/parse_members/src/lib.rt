// The members of services and enums: functions, enum members (rico's parser/definitions.rs).
#![tactic(auto)]

pub mod enums;
pub mod functions;
