// The tables of the core and what goes beside them by value: the layer under the calls.
#![tactic(auto)]

ghost use Rattle.std.specs.Prelude.{◌≡◌, [], ◌<◌, ◌^◌};
ghost use Rattle.definitions.specs.Client.{is_active};
ghost use Rattle.definitions.specs.Checks.{active_checks};
ghost use Rattle.definitions.specs.Refusals.{number_in};
ghost use Rattle.tables.specs.Controls.{with_generator};
ghost use Rattle.tables.specs.declared.Tables.{Tables};
ghost use Rattle.tables.specs.Tables.{filled};
ghost use Rattle.tables.specs.Meaning.{kind_at};
ghost use Rattle.tables.specs.Numbers.{refusal};

use counts::COUNTS;
use definitions::{Answer, IDS, PLACES, Refusal};
use generator::Generator;
use order::LINKS;

// What of the core is no table, and goes by value. Its fields stand by falling size, so that no padding between two of them is copied
// along. In one struct with the tables, lent by `&mut`, it goes through memory: then a call takes 9 to 27 instructions more.
#[derive(Clone, Copy)]
pub struct Control {
    // a mark for each id that is indifferent, that is private, and that has packets waiting
    pub indifferent: u64,
    pub private: u64,
    pub waiting: u64,
    pub generator: Generator,
    pub threshold: u32,
    pub discipline: u32,
    // the rates of all active clients together
    pub rates: u32,
    // a flag and no Option around the rest: `core_of` and `Valid` of specs/ read it, of any control
    pub opened: bool,
}

// What a call gives: its answer, and the control after it.
#[derive(Clone, Copy)]
pub struct Answered {
    pub control: Control,
    pub answer: Answer,
}

// What a client has once, its terms: rate, burst and level of each id, one column after the other. They are columns of numbers and no structs of
// clients, since the definitions' laws and the refill, which takes several ids at a time, go by column.
pub const TERMS: usize = 3 * IDS as usize;

pub const RATE: u32 = 0;

pub const BURST: u32 = IDS;

pub const LEVEL: u32 = 2 * IDS;

// What a client has to send, its stock: where its queue begins and how many packets it has, and its pool. In this order an arrival takes the
// fewest instructions.
pub const STOCKS: usize = 3 * IDS as usize;

pub const HEAD: u32 = 0;

pub const COUNT: u32 = IDS;

pub const POOL: u32 = 2 * IDS;

// The places of the waiting packets: "an array .. of handles and one of lengths" (paper 01), and so two arrays and no array of packets.
pub const STORE: usize = (IDS * PLACES) as usize;

// The tables of the core, of fixed size, since firmware has no heap: they are lent by `&mut`, and no call copies one.
#[derive(Drop)]
pub struct Tables {
    pub terms: [u32; TERMS],
    pub stocks: [u32; STOCKS],
    pub handles: [u64; STORE],
    pub lengths: [u16; STORE],
    pub links: [u32; LINKS],
    pub counts: [u64; COUNTS],
}

impl Tables {
    // Tables that hold a number throughout.
    pub fn filled(number: u32) -> Tables
        ensures { result ≡ filled number }
    {
        Tables {
            terms: [number; TERMS],
            stocks: [number; STOCKS],
            handles: [number as u64; STORE],
            lengths: [(number % 65536) as u16; STORE],
            links: [number; LINKS],
            counts: [number as u64; COUNTS],
        }
    }
}

// By number, as `Answer` has it.
pub fn refused(control: Control, number: u32) -> Answered
    ensures { result ≡ record { control = control; answer = Answer.Refused number } }
{
    Answered {
        control,
        answer: Answer::Refused { number },
    }
}

pub fn accepted(control: Control) -> Answered
    ensures { result ≡ record { control = control; answer = Answer.Accepted } }
{
    Answered {
        control,
        answer: Answer::Accepted,
    }
}

// The control with another generator.
pub fn with_generator(control: Control, generator: Generator) -> Control
    ensures { result ≡ with_generator control generator }
{
    Control {
        generator,
        ..control
    }
}

// A length as it is kept, as a number of a call.
pub fn lengthened(x: u16) -> u32
    ensures { result ≡ x }
{
    u32::from(x)
}

// `u64::from` with a clause that bounds it, for callers whose sums have to fit.
pub fn wide(x: u32) -> u64
    ensures { (result ≡ x) × (result < 2 ^ 32) }
{
    u64::from(x)
}

pub fn active(control: Control, id: u32) -> bool
    ensures { result ≡ is_active (kind_at control id) }
{
    marks::has(control.indifferent, id) || marks::has(control.private, id)
}

// What a call for an active client is refused for, before anything else of it counts: 19, 4, 5.
pub fn check_active(control: Control, id: u32) -> Result<(), Refusal>
    ensures { (t : Tables) → number_in result ≡ refusal control t (λ s. active_checks s id []) }
{
    if !control.opened {
        return Err(Refusal::Unopened);
    }
    if IDS <= id {
        return Err(Refusal::Id);
    }
    if !active(control, id) {
        return Err(Refusal::Inactive);
    }
    Ok(())
}
