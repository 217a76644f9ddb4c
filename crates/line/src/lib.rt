// A farm's line of waiting rows, settled after any change.
#![tactic(auto)]

pub mod settle; // settle.rt: heads that have their answer leave
