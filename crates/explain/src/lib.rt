// A day of recorded calls, told to people: a heading for each call, and the closing lines. Nothing here asks for room. The lines of a call's
// entries are those of the crate entries.
#![tactic(auto)]

pub mod closing; // closing.rt: the meters, and how the file ended
pub mod heading; // heading.rt: the heading of a call
