// The types of the papers that code and definitions share: a packet, an outcome, an answer, and what a sheet tells of a slot. Their
// meaning stands in specs/.
// Their numbers, too, as the code has them; for the proofs they stand in specs/Sizes.antt, and where two disagree a proof fails.
#![tactic(auto)]

ghost use Rattle.std.specs.Prelude.{◌≡◌};
ghost use Rattle.definitions.specs.ClientKinds.{reads_kind};
ghost use Rattle.definitions.specs.Refusals.{number_of};

// The largest number of a call, and the largest handle.
pub const NUMBER_LIMIT: u64 = 4294967295;

pub const HANDLE_LIMIT: u64 = 18446744073709551615;

// How many ids there are, and how many places each has.
pub const IDS: u32 = 64;

pub const PLACES: u32 = 128;

// The shares of the link. A packet costs a bucket as many, and a burst is counted in them.
pub const SHARES: u32 = 1024;

pub const BURST_LIMIT: u32 = 64;

pub const POOL_LIMIT: u64 = 255;

// The lengths of a packet. A private one is padded to the longest.
pub const SHORTEST: u32 = 64;

pub const LONGEST: u32 = 1518;

// How many values a draw may throw away.
pub const THROWS: u32 = 8;

// The kinds of a client, the paper's types, as numbers: a call's argument may be any number. What is one of these is read as a ClientKind.
pub const INDIFFERENT: u32 = 1;

pub const PRIVATE: u32 = 2;

// The disciplines are numbers: a call's argument may be any, and `state_of` of a control reads it.
// The discipline by which the packet that was accepted earliest goes first.
pub const FIRST_COME: u32 = 0;

// The discipline by which a draw decides, weighted by the rates. None is above it.
pub const WEIGHTED_DRAW: u32 = 1;

// A packet: a handle, which the core carries and never reads, and a length in bytes.
#[derive(Clone, Copy)]
pub struct Packet {
    pub handle: u64,
    pub length: u32,
}

// What leaves in a slot: "one of four, and a real one carries its packet".
#[derive(Clone, Copy)]
pub enum Outcome {
    Real {
        id: u32,
        packet: Packet,
        padding: u32,
    },
    Dummy {
        id: u32,
    },
    Idle {
        id: u32,
    },
    None,
}

// What a call gets: accepted, the number of the first check that failed, or the slot. It is a number and no Refusal, since a script's lines
// are answered with 16 to 18 too, and the laws over printing hold for every number.
#[derive(Clone, Copy)]
pub enum Answer {
    Accepted,
    Refused { number: u32 },
    Slot { outcome: Outcome },
}

// The checks of the calls, by what they found wrong.
#[derive(Clone, Copy, PartialEq, Eq)]
pub enum Refusal {
    Threshold,
    Discipline,
    Seed,
    Id,
    Inactive,
    Active,
    Kind,
    Rate,
    Burst,
    Rates,
    Indifferent,
    Pool,
    Length,
    Full,
    Drained,
    Unopened,
    Unfair,
}

impl Refusal {
    // The number of the check in the paper, which an answer gives.
    pub fn number(self) -> u32
        ensures { result ≡ number_of self }
    {
        match self {
            Refusal::Threshold => 1,
            Refusal::Discipline => 2,
            Refusal::Seed => 3,
            Refusal::Id => 4,
            Refusal::Inactive => 5,
            Refusal::Active => 6,
            Refusal::Kind => 7,
            Refusal::Rate => 8,
            Refusal::Burst => 9,
            Refusal::Rates => 10,
            Refusal::Indifferent => 11,
            Refusal::Pool => 12,
            Refusal::Length => 13,
            Refusal::Full => 14,
            Refusal::Drained => 15,
            Refusal::Unopened => 19,
            Refusal::Unfair => 22,
        }
    }
}

// The kind of an active client.
#[derive(Clone, Copy, PartialEq, Eq)]
pub enum ClientKind {
    Indifferent,
    Private,
}

impl TryFrom<u32> for ClientKind {
    type Error = Refusal;

    ghost try_from_gives = { λ number r. reads_kind number r };

    fn try_from(number: u32) -> Result<ClientKind, Refusal> {
        match number {
            INDIFFERENT => Ok(ClientKind::Indifferent),
            PRIVATE => Ok(ClientKind::Private),
            _ => Err(Refusal::Kind),
        }
    }
}

// A draw that a slot went by: its target, and the sum of the rates in it.
#[derive(Clone, Copy)]
pub struct Drawing {
    pub target: u32,
    pub sum: u64,
}

// What a sheet tells of a tick: the number of a refusal; the slot, whole, and for a reason the draw that it went by, if there was one;
// or only that it went to an indifferent client, or to another private one.
#[derive(Clone, Copy)]
pub enum Note {
    Refusal {
        number: u32,
    },
    Told {
        outcome: Outcome,
        reason: Option<Drawing>,
    },
    ToIndifferent,
    ToAnother,
}

// A client's counts since its join, in the order in which billing names them. Each wraps at 64 bits.
#[derive(Clone, Copy)]
pub struct CountSheet {
    pub accepted: u64,
    pub sent: u64,
    // refused with 14, for want of a place, and with 15, for want of a token
    pub full: u64,
    pub drained: u64,
    // by a change of type
    pub emptied: u64,
    pub dummies: u64,
}
