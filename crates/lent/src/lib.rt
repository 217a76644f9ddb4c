// The answer of a call. What the lent memory means stands in specs/.
#![tactic(auto)]

// "A refusal returns its number, output length 0, bytes taken 0, row 255."; "Answer 0 is done; its row is the opened one for connect, else
// 255."
#[repr(C)]
#[derive(Clone, Copy)]
pub struct Answer {
    pub number: u8,
    pub row: u8,
    pub taken: usize,
    pub length: usize,
}
