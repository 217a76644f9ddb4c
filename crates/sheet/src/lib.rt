// The farm sheet in its lent bytes: its counts, its farms, the lookups, and whose row is whose.
// Document 01's rules of a sheet stand in specs/; the crate sheet_rules tests them.
#![tactic(auto)]

pub mod farms;
pub mod find;
pub mod head;
pub mod rows;

// Where things stand, as specs/Sheet.antt has it.
pub const HEAD_SIZE: usize = 12;

pub const FARM_SIZE: usize = 33;

pub const KNOWN_SIZE: usize = 4;
