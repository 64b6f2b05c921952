// One slot: whose it is, what that client sends, and the refill of every bucket (paper 01, "Tick is one slot").
#![tactic(auto)]

ghost use Rattle.std.specs.Prelude.{◌≡◌, cond, List, ℕ, ◌-◌, ◌≤◌, ◌<◌};
ghost use Rattle.definitions.specs.Event.{Tick};
ghost use Rattle.definitions.specs.Sizes.{ids, places, longest};
ghost use Rattle.definitions.specs.Draw.{sum_below};
ghost use Rattle.definitions.specs.Tick.{turn};
ghost use Rattle.definitions.specs.History.{draws_of};
ghost use Rattle.marks.specs.Marks.{marked};
ghost use Rattle.draw.specs.Weights.{weight_at};
ghost use Rattle.draw.specs.Samples.{StandsFor};
ghost use Rattle.order.specs.Order.{sentinel, Sound};
ghost use Rattle.tables.specs.Tables.{tables, head_at, count_at};
ghost use Rattle.tables.specs.Meaning.{packet_at, state_of, core_of};
ghost use Rattle.tables.specs.Invariant.{SoundCore, Valid};
ghost use Rattle.tables.specs.Places.{Promised};
ghost use Rattle.slot.specs.Turns.{Chosen, DrawnAmong, HeldByBoth, SoundWith};
ghost use Rattle.slot.specs.Sends.{Settled, popped, Unlinked, SomeSender, Spends};
ghost use Rattle.slot.specs.Slots.{SomeDue, Does};
ghost use Rattle.slot.specs.Buckets.{Refillable, Refilled};

use counts::COUNTS;
use definitions::{Answer, FIRST_COME, IDS, LONGEST, Outcome, PLACES, Packet, Refusal};
use draw::Sample;
use generator::Generator;
use order::LINKS;
use tables::{Answered, BURST, COUNT, Control, HEAD, LEVEL, POOL, STOCKS, STORE, TERMS};

// From how many indifferent ids on all ids are gone through.
const DENSE: u32 = 12;

// How many ids there are, and where the bursts and the levels begin in the table of terms.
const EACH: usize = IDS as usize;

const FIRST_BURST: usize = BURST as usize;

const FIRST_LEVEL: usize = LEVEL as usize;

// The rules of the paper by which a slot goes: 1, 2 and 3.
#[derive(Clone, Copy)]
enum Rule {
    IndifferentFirst,
    PrivateDraw,
    Nobody,
}

// Whose slot it is: by which of the paper's rules, whose id, and what was drawn, with the generator after the pick.
#[derive(Clone, Copy)]
struct Choice {
    rule: Rule,
    id: u32,
    sample: Sample,
}

// The rates of all private clients together. The control has those of all clients, so the kind with fewer marks is summed up, and
// none where nobody is indifferent.
fn private_total(control: Control, terms: &[u32; TERMS]) -> u64
    requires { HeldByBoth control terms.now }
    ensures { result ≡ sum_below ids (weight_at control.private terms.now) }
{
    if control.indifferent == 0 {
        return u64::from(control.rates);
    }
    if control.private.count_ones() < control.indifferent.count_ones() {
        return draw::total(control.private, terms);
    }
    u64::from(control.rates) - draw::total(control.indifferent, terms)
}

// A draw among the marked ids, by their rates, whose sum is the total.
fn draw_among(
    rule: Rule,
    word: u64,
    total: u64,
    terms: &[u32; TERMS],
    generator: Generator,
) -> Choice
    requires { total ≡ sum_below ids (weight_at word terms.now) }
    ensures { DrawnAmong rule word generator.value terms.now result }
{
    let sample = draw::sample_below(total, generator);
    let id = draw::pick(word, terms, sample.target);
    Choice { rule, id, sample }
}

// The first of rules 1 to 3 that applies, and whom it picks: "no mark among the indifferent means that none of them waits".
// The private are drawn among whether they wait or not.
fn turn(control: Control, terms: &[u32; TERMS], links: &[u32; LINKS]) -> Choice
    requires { SoundWith control terms.now links.now }
    ensures { (k h l n : List ℕ) → SoundCore control (tables terms.now k h l links.now n)
        → Chosen result (turn (state_of control (tables terms.now k h l links.now n))) }
{
    let generator = control.generator;
    let contenders = marks::both(control.waiting, control.indifferent);
    if marks::any(contenders) {
        if control.discipline != FIRST_COME {
            let total = draw::total(contenders, terms);
            return draw_among(Rule::IndifferentFirst, contenders, total, terms, generator);
        }
        return Choice {
            rule: Rule::IndifferentFirst,
            id: order::front(links) / PLACES,
            sample: draw::undrawn(generator),
        };
    }
    if marks::any(control.private) {
        let total = private_total(control, terms);
        return draw_among(Rule::PrivateDraw, control.private, total, terms, generator);
    }
    Choice {
        rule: Rule::Nobody,
        id: 0,
        sample: draw::undrawn(generator),
    }
}

// What a client sent in its slot, and the control after it.
#[derive(Clone, Copy)]
struct Sent {
    control: Control,
    outcome: Outcome,
}

// The packet that lies at a place.
fn packet_at(handles: &[u64; STORE], lengths: &[u16; STORE], place: u32) -> Packet
    requires { place < sentinel }
    ensures { (e k n m : List ℕ) → result ≡ packet_at (tables e k handles.now lengths.now n m) place }
{
    let at = place as usize;
    Packet {
        handle: handles[at],
        length: tables::lengthened(lengths[at]),
    }
}

// How much is added to a packet: a private one is as long as the longest, so that its length tells nothing.
fn padding(control: Control, id: u32, length: u32) -> u32
    requires { length ≤ longest }
    ensures { result ≡ cond (marked control.private id) (longest - length) 0 }
{
    if marks::has(control.private, id) {
        LONGEST - length
    } else {
        0
    }
}

// Takes the first packet out of an id's queue: "a place is used again once its packet has gone".
fn pop(stocks: &mut [u32; STOCKS], id: u32)
    requires { (id < ids) × (head_at stocks.old id < places) × (0 < count_at stocks.old id) }
    ensures { stocks.new ≡ popped stocks.old id }
{
    let head = (HEAD + id) as usize;
    let count = (COUNT + id) as usize;
    let first = stocks[head];
    let waiting = stocks[count];
    stocks[head] = (first + 1) % PLACES;
    stocks[count] = waiting - 1;
}

// Takes a place out of the order of acceptance, where only indifferent packets stand.
fn leave_order(control: Control, links: &mut [u32; LINKS], id: u32, place: u32)
    requires { Sound links.old }
    ensures { Unlinked (marked control.indifferent id) place links.old links.new }
{
    if marks::has(control.indifferent, id) {
        order::unlink(links, place);
    }
}

// The control after a packet of an id went: the id's mark goes with the last one.
fn settle(control: Control, left: u32, id: u32) -> Control
    ensures { Settled control left id result }
{
    if left != 0 {
        return control;
    }
    let mut after = control;
    after.waiting = marks::unmark(control.waiting, id);
    after
}

// Those who send take the tables that they read or write one by one, so that no other can be written (`Spends`).
// An id sends its first packet: it goes from the queue, from the order and, with the last one, from the marks.
fn send_packet(
    control: Control,
    stocks: &mut [u32; STOCKS],
    handles: &[u64; STORE],
    lengths: &[u16; STORE],
    links: &mut [u32; LINKS],
    id: u32,
) -> Sent
    requires { SomeSender control stocks.old handles.now lengths.now links.old id × (0 < count_at stocks.old id) }
    ensures { Spends control stocks.old handles.now lengths.now links.old id result stocks.new links.new }
{
    let place = id * PLACES + stocks[(HEAD + id) as usize];
    let packet = packet_at(handles, lengths, place);
    let added = padding(control, id, packet.length);
    pop(stocks, id);
    leave_order(control, links, id, place);
    let after = settle(control, stocks[(COUNT + id) as usize], id);
    Sent {
        control: after,
        outcome: Outcome::Real {
            id,
            packet,
            padding: added,
        },
    }
}

// An id sends in its slot: its first packet; without one a dummy, which lowers its pool; without either it idles.
fn send(
    control: Control,
    stocks: &mut [u32; STOCKS],
    handles: &[u64; STORE],
    lengths: &[u16; STORE],
    links: &mut [u32; LINKS],
    id: u32,
) -> Sent
    requires { SomeSender control stocks.old handles.now lengths.now links.old id }
    ensures { Spends control stocks.old handles.now lengths.now links.old id result stocks.new links.new }
{
    if marks::has(control.waiting, id) {
        return send_packet(control, stocks, handles, lengths, links, id);
    }
    let at = (POOL + id) as usize;
    let pool = stocks[at];
    if 0 < pool {
        stocks[at] = pool - 1;
        return Sent {
            control,
            outcome: Outcome::Dummy { id },
        };
    }
    Sent {
        control,
        outcome: Outcome::Idle { id },
    }
}

// The one whose turn it is sends, and the generator after the pick is kept. In nobody's slot nothing goes.
fn spend(
    control: Control,
    stocks: &mut [u32; STOCKS],
    handles: &[u64; STORE],
    lengths: &[u16; STORE],
    links: &mut [u32; LINKS],
    choice: Choice,
) -> Sent
    requires { SomeDue control stocks.old handles.now lengths.now links.old choice }
    ensures { Does control stocks.old handles.now lengths.now links.old choice result
        stocks.new links.new }
{
    let sample = choice.sample;
    let after = tables::with_generator(control, sample.generator);
    match choice.rule {
        Rule::IndifferentFirst | Rule::PrivateDraw => {
            send(after, stocks, handles, lengths, links, choice.id)
        }
        Rule::Nobody => Sent {
            control: after,
            outcome: Outcome::None,
        },
    }
}

// Refills the bucket of every marked id where it is kept. Where many ids are marked, it is quicker to go through all.
fn refill_all(word: u64, terms: &mut [u32; TERMS])
    requires { Refillable word terms.old }
    ensures { Refilled word terms.old terms.new }
{
    if word.count_ones() < DENSE {
        refill_marked(word, terms);
    } else {
        refill_each(word, terms);
    }
}

// By the marks: ids without one are not visited.
fn refill_marked(word: u64, terms: &mut [u32; TERMS])
    requires { Refillable word terms.old }
    ensures { Refilled word terms.old terms.new }
{
    for id in marks::ids(word) {
        let at = (LEVEL + id) as usize;
        terms[at] = bucket::level_after(
            terms[at],
            terms[id as usize],
            terms[(BURST + id) as usize],
        );
    }
}

// By the ids: one without a mark has no bucket, and stays without. The compiler takes several ids at a time.
fn refill_each(word: u64, terms: &mut [u32; TERMS])
    requires { Refillable word terms.old }
    ensures { Refilled word terms.old terms.new }
{
    for id in 0..EACH {
        terms[FIRST_LEVEL + id] = bucket::level_after(
            terms[FIRST_LEVEL + id],
            terms[id],
            terms[FIRST_BURST + id],
        );
    }
}

// What a tick gives: the answer with the control after it, and what was drawn; where nobody was, that has 0 steps and a sum of 0.
#[derive(Clone, Copy)]
pub struct Ticked {
    pub answered: Answered,
    pub sample: Sample,
}

// One slot (paper 01, "Tick is one slot"): rules 1 to 3 say whose it is, and rule 4 refills after the pick. What was sent is counted.
// Refused: 19. The tables come one by one: those that a tick does not write, handles and lengths, are lent by `&`.
pub fn tick(
    control: Control,
    terms: &mut [u32; TERMS],
    stocks: &mut [u32; STOCKS],
    handles: &[u64; STORE],
    lengths: &[u16; STORE],
    links: &mut [u32; LINKS],
    counts: &mut [u64; COUNTS],
) -> Ticked
    requires { Valid control (tables terms.old stocks.old handles.now lengths.now links.old counts.old) }
    ensures promised { Promised Tick control
        (tables terms.old stocks.old handles.now lengths.now links.old
        counts.old)
        result.answered
        (tables terms.new stocks.new handles.now lengths.now links.new
        counts.new) }
    ensures stands_for { StandsFor result.sample (draws_of (core_of control
        (tables terms.old stocks.old handles.now lengths.now links.old
        counts.old))) }
{
    if !control.opened {
        let answered = tables::refused(control, Refusal::Unopened.number());
        return Ticked {
            answered,
            sample: draw::undrawn(control.generator),
        };
    }
    let choice = turn(control, terms, links);
    let sample = choice.sample;
    let sent = spend(control, stocks, handles, lengths, links, choice);
    refill_all(control.indifferent, terms);
    let after = sent.control;
    let outcome = sent.outcome;
    counts::send(counts, outcome);
    let answered = Answered {
        control: after,
        answer: Answer::Slot { outcome },
    };
    Ticked { answered, sample }
}
