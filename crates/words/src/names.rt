// The phrases for document 01's numbers, as specs/Names.antt has them. Each function answers the phrase's number.
ghost use Rattle.std.specs.Prelude.{◌≡◌};
ghost use Rattle.words.specs.Book.{phrase};
ghost use Rattle.words.specs.Names.{refusal_name, fault_name, activation_name, diagnostic_name, mode_name};

use crate::book;

// A refusal's number.
#[tactic(auto, unfolding(crate::specs::Book::phrase, crate::specs::Book::book, crate::specs::Names::refusal_name))]
pub fn refusal(n: u8) -> usize
    ensures { phrase result ≡ refusal_name n }
{
    match n {
        1 => book::REFUSED_1,
        2 => book::REFUSED_2,
        3 => book::REFUSED_3,
        4 => book::REFUSED_4,
        5 => book::REFUSED_5,
        6 => book::REFUSED_6,
        7 => book::REFUSED_7,
        8 => book::REFUSED_8,
        9 => book::REFUSED_9,
        10 => book::REFUSED_10,
        _ => book::REFUSED_OTHER,
    }
}

// The code of a header negative acknowledge, 0000.
#[tactic(auto, unfolding(crate::specs::Book::phrase, crate::specs::Book::book, crate::specs::Names::fault_name))]
pub fn fault(code: u8) -> usize
    ensures { phrase result ≡ fault_name code }
{
    match code {
        0x00 => book::FAULT_PATTERN,
        0x01 => book::FAULT_TYPE,
        0x02 => book::FAULT_LONG,
        0x04 => book::FAULT_LENGTH,
        _ => book::UNKNOWN_CODE,
    }
}

// The code of a routing activation response, 0006.
#[tactic(auto, unfolding(crate::specs::Book::phrase, crate::specs::Book::book, crate::specs::Names::activation_name))]
pub fn activation(code: u8) -> usize
    ensures { phrase result ≡ activation_name code }
{
    match code {
        0x00 => book::NOT_OF_FARM,
        0x01 => book::ALL_IN_USE,
        0x02 => book::ROW_TAKEN,
        0x03 => book::TESTER_ELSEWHERE,
        0x06 => book::TYPE_NOT_SUPPORTED,
        0x10 => book::ACTIVATED,
        _ => book::UNKNOWN_CODE,
    }
}

// The code of an answer to a diagnostic message, 8002 or 8003.
#[tactic(auto, unfolding(crate::specs::Book::phrase, crate::specs::Book::book, crate::specs::Names::diagnostic_name))]
pub fn diagnostic(code: u8) -> usize
    ensures { phrase result ≡ diagnostic_name code }
{
    match code {
        0x00 => book::ACCEPTED,
        0x02 => book::SENDER_NOT_ACTIVE,
        0x03 => book::NOT_A_CONTROLLER,
        0x06 => book::NOT_REACHABLE,
        _ => book::UNKNOWN_CODE,
    }
}

// The power mode, of 4004.
#[tactic(auto, unfolding(crate::specs::Book::phrase, crate::specs::Book::book, crate::specs::Names::mode_name))]
pub fn mode(n: u8) -> usize
    ensures { phrase result ≡ mode_name n }
{
    match n {
        0 => book::NOT_READY,
        1 => book::READY,
        2 => book::NOT_SUPPORTED,
        _ => book::UNKNOWN_MODE,
    }
}
