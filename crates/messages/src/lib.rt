// What the end of a bytes call brings about on one farm's block: a message that is finished, or a header judged wrong.
#![tactic(auto)]

pub mod fault; // fault.rt: a header judged wrong
pub mod message; // message.rt: by what ended the call, and by the message's type
