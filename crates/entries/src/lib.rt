// The entries of an output sheet, told to people: a line for each. Nothing here asks for room, or that a sheet is right: what can't be read
// is said to be so.
#![tactic(auto)]

pub mod entry; // entry.rt: the lines
mod message; // message.rt: what is said of a message
