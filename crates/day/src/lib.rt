// A day of recorded calls: the records of its file. Nothing here reads a file or makes a call.
#![tactic(auto)]

pub mod places; // places.rt: bytes moved to another place
pub mod records; // records.rt: what stands at a place of the file
