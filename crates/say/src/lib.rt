// What a day's program writes: a line for each call, or the call told in words; the farms' meters; how the file ended.
#![tactic(auto)]

pub mod calls; // calls.rt: what is written of a call
pub mod ending; // ending.rt: the meters, and the last line
pub mod fault; // fault.rt: what went wrong, on standard error
pub mod text; // text.rt: the text that lines are gathered in
