// The calls that a line of the script may hold, what a line without one is refused for, and for whom a text is printed. The grammar
// and the printout stand in specs/.
#![tactic(auto)]

ghost use Rattle.std.specs.Prelude.{◌≡◌};
ghost use Rattle.grammar.specs.Unread.{unread_number};

use definitions::Packet;

// The longest text that is read. For the proofs it stands in specs/Bytes.antt, and where the two disagree a proof fails.
pub const TEXT_LIMIT: usize = 60000;

// Kinds and disciplines are numbers here, as in `Event`, which it stands for.
// The calls that a form may stand for, with their arguments in the order of the paper. Any number may stand anywhere.
#[derive(Clone, Copy)]
pub enum Call {
    Open {
        threshold: u32,
        discipline: u32,
        seed: u32,
    },
    Join {
        id: u32,
        kind: u32,
        rate: u32,
        burst: u32,
    },
    Change {
        id: u32,
        kind: u32,
        rate: u32,
        burst: u32,
    },
    Leave {
        id: u32,
    },
    Load {
        id: u32,
        dummies: u32,
    },
    Arrive {
        id: u32,
        packet: Packet,
    },
    Tick,
}

// What a line is refused for that holds no call: another shape than any form, or a number above its limit.
#[derive(Clone, Copy, PartialEq, Eq)]
pub enum Unread {
    NoForm,
    TooLarge,
}

impl Unread {
    // The number that such a line is answered with.
    pub fn number(self) -> u32
        ensures { result ≡ unread_number self }
    {
        match self {
            Unread::NoForm => 16,
            Unread::TooLarge => 17,
        }
    }
}

// For whom a text is printed: for the caller, who is given the answer to each line; or for the operator, or a private tenant, who
// are told of each tick.
#[derive(Clone, Copy)]
pub enum Audience {
    Caller,
    Operator,
    Tenant { id: u32 },
}
