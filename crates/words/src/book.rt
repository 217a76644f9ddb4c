// The phrase book: every phrase that is said, and the number of each. A % is a hole, filled in when the phrase is said.
ghost use Rattle.std.specs.Prelude.{◌≡◌};
ghost use Rattle.words.specs.Said.{Said};
ghost use Rattle.words.specs.Book.{phrase, text_in};

use crate::put;

// A phrase goes by its number and not by an enum: `phrase` and `fill::say` take any number, and an enum has none past the last.

// Refusals.
pub const REFUSED_1: usize = 0;

pub const REFUSED_2: usize = 1;

pub const REFUSED_3: usize = 2;

pub const REFUSED_4: usize = 3;

pub const REFUSED_5: usize = 4;

pub const REFUSED_6: usize = 5;

pub const REFUSED_7: usize = 6;

pub const REFUSED_8: usize = 7;

pub const REFUSED_9: usize = 8;

pub const REFUSED_10: usize = 9;

pub const REFUSED_OTHER: usize = 10;

// The codes of a header negative acknowledge.
pub const FAULT_PATTERN: usize = 11;

pub const FAULT_TYPE: usize = 12;

pub const FAULT_LONG: usize = 13;

pub const FAULT_LENGTH: usize = 14;

// The codes of a routing activation response.
pub const NOT_OF_FARM: usize = 15;

pub const ALL_IN_USE: usize = 16;

pub const ROW_TAKEN: usize = 17;

pub const TESTER_ELSEWHERE: usize = 18;

pub const TYPE_NOT_SUPPORTED: usize = 19;

pub const ACTIVATED: usize = 20;

// The codes of an answer to a diagnostic message.
pub const ACCEPTED: usize = 21;

pub const SENDER_NOT_ACTIVE: usize = 22;

pub const NOT_A_CONTROLLER: usize = 23;

pub const NOT_REACHABLE: usize = 24;

pub const UNKNOWN_CODE: usize = 25;

// Power modes.
pub const NOT_READY: usize = 26;

pub const READY: usize = 27;

pub const NOT_SUPPORTED: usize = 28;

pub const UNKNOWN_MODE: usize = 29;

// What becomes of an entry.
pub const NACK: usize = 30;

pub const IDENTITY: usize = 31;

pub const ACTIVATION: usize = 32;

pub const ALIVE_CHECK: usize = 33;

pub const STATUS: usize = 34;

pub const POWER_MODE: usize = 35;

pub const MESSAGE: usize = 36;

pub const POSITIVE: usize = 37;

pub const NEGATIVE: usize = 38;

pub const ODD_MESSAGE: usize = 39;

pub const CLOSED: usize = 40;

pub const HANDED_ON: usize = 41;

pub const ODD_PAYLOAD: usize = 42;

pub const ODD_KIND: usize = 43;

pub const ODD_ENTRY: usize = 44;

// Whose entry it is.
pub const TO_ROW: usize = 45;

pub const TO_SENDER: usize = 46;

// A heading: its number, the call, the answer.
pub const CALL: usize = 47;

pub const START: usize = 48;

pub const CONNECT: usize = 49;

pub const BYTES: usize = 50;

pub const PEER_CLOSED: usize = 51;

pub const LINK_LOST: usize = 52;

pub const TICK: usize = 53;

pub const DATAGRAM: usize = 54;

pub const CONTROLLER: usize = 55;

pub const DONE: usize = 56;

pub const OPENED: usize = 57;

pub const TAKEN: usize = 58;

pub const REFUSED: usize = 59;

// The closing lines.
pub const FARM: usize = 60;

pub const END: usize = 61;

pub const CUT: usize = 62;

pub const BAD: usize = 63;

static PHRASES: [&str; 64] = [
    "the farm sheet breaks a rule",
    "the output buffer has under 4096 bytes",
    "the assembling buffer has not 32768 bytes",
    "the table breaks a rule",
    "the sheet has no such farm",
    "the row is not open",
    "the row waits for its activation",
    "the farm has no free row",
    "no user data, or over 2044 bytes",
    "not a controller of the farm, or the tester is not active there",
    "a number without a meaning",
    "the header does not begin as it must",
    "the type is unknown here",
    "the message is too long",
    "the length is wrong for the type",
    "not a tester of this farm",
    "all places of the farm are in use",
    "the row is active for another tester",
    "the tester is active on another row",
    "the activation type is not supported",
    "activated",
    "accepted",
    "the sender is not active on this row",
    "not a controller of this farm",
    "the controller is not reachable",
    "an unknown code",
    "not ready",
    "ready",
    "not supported",
    "an unknown mode",
    "sent header negative acknowledge (0000): code %, %",
    "sent vehicle identification response (0004): entity %, VIN ",
    "sent routing activation response (0006): tester %, entity %, code %, %",
    "sent alive check request (0007)",
    "sent entity status response (4002): places for testers %, rows open %, longest message % bytes",
    "sent power mode response (4004): %, %",
    "sent diagnostic message (8001): from controller % to tester %, user data % bytes",
    "sent diagnostic positive acknowledge (8002): from controller % to tester %, code %, %",
    "sent diagnostic negative acknowledge (8003): from controller % to tester %, code %, %",
    "sent a message that can not be read",
    "closed",
    "handed on: from tester % to controller %, user data % bytes",
    "handed on a payload that can not be read",
    "an entry of an unknown kind, %",
    "    an entry that can not be read",
    "    row %: ",
    "    datagram: ",
    "call %: ",
    "start a fresh table: ",
    "connect, farm %: ",
    "bytes from row %: ",
    "peer closed, row %: ",
    "link of farm % lost: ",
    "tick: ",
    "datagram, farm %: ",
    "message from a controller, farm %, from controller % to tester %: ",
    "done",
    "done, row % opened",
    "done, % of % bytes taken",
    "refused (%): %",
    "farm %: % bytes taken, % finished, % lost",
    "the end: % calls",
    "the file is cut at byte %: the record that begins there is not whole",
    "the file is bad at byte %: the record that begins there can not be read",
];

// One of some texts, or an empty one where there are not so many.
fn nth(texts: &[&'static str], k: usize) -> &'static str
    ensures { result.now ≡ text_in texts.now k }
{
    match texts.get(k) {
        Some(text) => text,
        None => "",
    }
}

// The words of the phrase with this number.
pub(crate) fn text(k: usize) -> &'static [u8]
    ensures { result.now ≡ phrase k }
{
    nth(&PHRASES, k).as_bytes()
}

// The phrase with this number.
pub fn phrase(out: &mut [u8], at: usize, k: usize) -> usize
    ensures { Said (phrase k) out.old out.new at result }
{
    put::words(out, at, text(k))
}
