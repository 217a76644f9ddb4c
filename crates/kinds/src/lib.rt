// The types by value that the core speaks of. Nothing here knows how any of them stands in bytes.
#![tactic(auto)]

ghost use Rattle.std.specs.Prelude.{◌≡◌};
ghost use Rattle.kinds.specs.Clock.{clock_of, stepped};
ghost use Rattle.kinds.specs.Number.{refusal_number};

// A row over the whole sheet, 0 to 15 (255 where an entry belongs to none), and a farm, 0 to 3: two kinds, so that a row can't
// index the farms.
#[derive(Clone, Copy, PartialEq, Eq)]
pub struct RowNo(pub u8);

#[derive(Clone, Copy, PartialEq, Eq)]
pub struct FarmNo(pub u8);

// What the rules of a farm's line look at of its sheet: its first row over the whole sheet, its quota, its entity address.
#[derive(Clone, Copy)]
pub struct Site {
    pub first: u8,
    pub quota: u8,
    pub entity: u16,
}

// Ticks of 10 ms.
#[derive(Clone, Copy)]
pub struct Clock {
    pub ticks: u16,
}

// "Limits of 001 in ticks: initial 200, alive check 50, general 30,000."
impl Clock {
    pub const INITIAL: u16 = 200;

    pub const CHECK: u16 = 50;

    pub const GENERAL: u16 = 30000;

    pub fn fresh() -> Self
        ensures { result ≡ clock_of 0 }
    {
        Self { ticks: 0 }
    }

    // One tick later. A clock at the end of its two bytes stays there; each limit is far below.
    pub fn stepped(self) -> Self
        ensures { result ≡ stepped self }
    {
        match self.ticks.checked_add(1) {
            Some(ticks) => Self { ticks },
            None => self,
        }
    }
}

// A routing activation request: "all after the type are ignored", so nothing else of it is kept.
#[derive(Clone, Copy)]
pub struct Request {
    pub address: u16,
    pub kind: u8,
}

// "A row is free, fresh with its age, waiting with its request, or active with its tester's address and idle count."
#[derive(Clone, Copy)]
pub enum RowState {
    Free,
    Fresh(Clock),
    Waiting(Request),
    Active(u16, Clock),
}

// "its place in the byte stream": so many header bytes in hand, or so many payload bytes read, or skipped.
#[derive(Clone, Copy)]
pub enum Place {
    Header(u8),
    Reading(u32),
    Skipping(u32),
}

// A row is one TCP connection. An enum holds no array, so the header's bytes stand beside its place; those not in hand are 0.
#[derive(Clone, Copy)]
pub struct Row {
    pub state: RowState,
    pub place: Place,
    pub head: [u8; 8],
}

// "three meters", each wrapping on purpose.
#[derive(Clone, Copy, Default)]
pub struct Meters {
    pub taken: u32,
    pub finished: u32,
    pub lost: u32,
}

// Whom an alive check asks: the row with this seat, or all active rows of the farm. (No Option: to ask all is no absence.)
#[derive(Clone, Copy)]
pub enum Check {
    One(u8),
    All,
}

// What the rules say of a request: a code at once, or an alive check first. (No Result: neither is a failure. A code is a number, since the
// promises speak of any.)
#[derive(Clone, Copy)]
pub enum Decision {
    Now(u8),
    Ask(Check),
}

// What becomes of the head of a line: its check goes on, it has its answer, or its check has run out. (Three, and none an absence.)
#[derive(Clone, Copy)]
pub enum HeadVerdict {
    Pending,
    Answer(u8),
    RunOut(Check),
}

// What is wrong with a header, in document 01's order.
#[derive(Clone, Copy)]
pub enum Fault {
    Pattern,
    UnknownType,
    TooLong,
    WrongLength,
}

// What ended a bytes call: "takes bytes until the input ends, a header is judged wrong, or one message is finished". A finished message has
// its type and its payload's length, a skipped one its length.
#[derive(Clone, Copy)]
pub enum Event {
    InputEnded,
    Wrong(Fault),
    Finished(u16, u32),
    Skipped(u32),
}

// What an entry of the output sheet says. An enum holds no bytes: the one long payload of a call is lent beside its entries.
#[derive(Clone, Copy)]
pub enum Reply {
    // Send 0000: the code.
    Nack(u8),
    // Send 0004 of the farm whose record is lent.
    Identity,
    // Send 0006: address, entity address, code.
    Activation(u16, u16, u8),
    // Send 0007.
    AliveCheck,
    // Send 4002: quota, open rows.
    Status(u8, u8),
    // Send 4004: the power mode.
    PowerMode(u8),
    // Send 8001: controller, tester; the user data are lent.
    Message(u16, u16),
    // Send 8002: target, source, code.
    Ack(u16, u16, u8),
    // Send 8003: target, source, code.
    DiagnosticNack(u16, u16, u8),
    // Close the row.
    Close,
    // Hand the payload that is lent on to its controller.
    HandOn,
}

// An entry before it is bytes. The version is the row's (in the base always 03).
#[derive(Clone, Copy)]
pub struct Item {
    pub row: RowNo,
    pub version: u8,
    pub reply: Reply,
}

// Why a call is refused. As a number it is document 01's.
#[derive(Clone, Copy, PartialEq, Eq)]
pub enum Refusal {
    SheetBroken = 1,
    OutputShort = 2,
    AssemblingWrong = 3,
    TableBroken = 4,
    FarmUnknown = 5,
    RowNotOpen = 6,
    RowWaits = 7,
    NoFreeRow = 8,
    UserUnfit = 9,
    EndsUnknown = 10,
}

impl Refusal {
    pub fn number(self) -> u8
        ensures { result ≡ refusal_number self }
    {
        self as u8
    }
}
