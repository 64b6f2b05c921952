// Makes long runs in which one client offers packets until it is refused, and prints how many of its offerings gave it exactly
// what it bought. The first argument is the seed, the second how many blocks.
#![tactic(auto)]

ghost use Rattle.std.specs.Prelude.{◌≡◌, ◌*◌};
ghost use Rattle.tables.specs.Meaning.{core_of};
ghost use Rattle.tables.specs.Invariant.{Valid};
ghost use Rattle.runs.specs.LongRun.{block};
ghost use Rattle.greedy.specs.Phases.{risen, rate_from, call_in, bought, ended};
ghost use Rattle.greedy.specs.Phases.{refused_with, offered, joined, paused, ticked, turned};
ghost use Rattle.greedy.specs.GreedyRun.{GreedyRun, level_in, next};
ghost use Rattle.greedy.specs.Stands.{Begins, Tells, greedy_of};

use definitions::{Answer, INDIFFERENT, Refusal, SHARES};
use grammar::Call;
use runs::{Progress, Run};
use std::io::Result;
use tables::{Control, LEVEL, Tables};
use tally::BLOCK;

// The client that offers.
const GREEDY: u32 = 9;

// The phases, as numbers: the definitions `call_in` and `turned` say for every number which call comes next, and which number behind it.
// From OTHERS up to TICKING they are of other clients' calls.
const OPENING: u32 = 0;

const JOINING: u32 = 1;

const PAUSING: u32 = 2;

const OFFERING: u32 = 3;

const OTHERS: u32 = 4;

const TICKING: u32 = 8;

// What a run keeps beside its maker of calls and its check: the phase; of the stretch its rate, its level at the start, its
// ticks and the packets accepted; and the offerings that ended, and those that were exact.
#[derive(Clone, Copy)]
pub struct Counts {
    pub phase: u32,
    pub rate: u32,
    pub level: u32,
    pub ticks: u32,
    pub accepted: u32,
    pub offerings: u32,
    pub exact: u32,
}

// How far a run has come, beside its tables.
#[derive(Clone, Copy)]
pub struct GreedyProgress {
    pub progress: Progress,
    pub counts: Counts,
}

// The next number of 32 bits: 0 behind the largest.
#[tactic(auto, unfolding(crate::specs::Phases::risen))]
fn rise(n: u32) -> u32
    ensures { result ≡ risen n }
{
    n.wrapping_add(1)
}

#[tactic(auto, unfolding(crate::specs::Phases::rate_from, definitions::specs::Sizes::shares))]
fn rate_from(c: u32) -> u32
    ensures { result ≡ rate_from c }
{
    1 + c % SHARES
}

// The call of a phase, from four draws. Other clients' calls are those of a busy time.
#[tactic(auto, unfolding(crate::specs::Phases::call_in, definitions::specs::Sizes::shares, definitions::specs::Sizes::indifferent_kind))]
fn call_in(phase: u32, a: u32, b: u32, c: u32, d: u32) -> Call
    ensures { result ≡ call_in phase a b c d }
{
    match phase {
        OPENING => Call::Open {
            threshold: SHARES,
            discipline: c % 2,
            seed: d,
        },
        JOINING => Call::Join {
            id: GREEDY,
            kind: INDIFFERENT,
            rate: rate_from(c),
            burst: 2 + d % 63,
        },
        PAUSING | TICKING => Call::Tick,
        OFFERING => Call::Arrive {
            id: GREEDY,
            packet: runs::packet_of(c, d),
        },
        _ => runs::call_of(false, 1 + a % 15600, b % 65536, c, d),
    }
}

// How many packets the stretch has bought so far.
#[tactic(auto, unfolding(crate::specs::Phases::bought))]
fn bought(counts: Counts) -> u64
    ensures { result ≡ bought counts }
{
    bucket::tokens(counts.level, counts.rate, counts.ticks)
}

// After an arrival that ended an offering.
#[tactic(auto, unfolding(crate::specs::Phases::ended))]
fn end(counts: Counts) -> Counts
    ensures { result ≡ ended counts }
{
    let exact = if u64::from(counts.accepted) == bought(counts) {
        rise(counts.exact)
    } else {
        counts.exact
    };
    Counts {
        phase: OTHERS,
        offerings: rise(counts.offerings),
        exact,
        ..counts
    }
}

// After an arrival that was refused.
#[tactic(auto, unfolding(crate::specs::Phases::refused_with))]
fn refuse(counts: Counts, number: u32) -> Counts
    ensures { result ≡ refused_with counts number }
{
    if number == Refusal::Drained.number() {
        return end(counts);
    }
    if number == Refusal::Full.number() {
        return Counts {
            phase: OPENING,
            ..counts
        };
    }
    counts
}

// After an arrival.
#[tactic(auto, unfolding(crate::specs::Phases::offered))]
fn offer(counts: Counts, answer: Answer) -> Counts
    ensures { result ≡ offered counts answer }
{
    match answer {
        Answer::Accepted => Counts {
            accepted: rise(counts.accepted),
            ..counts
        },
        Answer::Refused { number } => refuse(counts, number),
        Answer::Slot { outcome: _ } => counts,
    }
}

// After the join.
#[tactic(auto, unfolding(crate::specs::Phases::joined))]
fn join(counts: Counts, c: u32) -> Counts
    ensures { result ≡ joined counts c }
{
    Counts {
        phase: PAUSING,
        rate: rate_from(c),
        ..counts
    }
}

// After a tick before the stretch, which left the client a level.
#[tactic(auto, unfolding(crate::specs::Phases::paused))]
fn pause(counts: Counts, d: u32, level: u32) -> Counts
    ensures { result ≡ paused counts d level }
{
    if d % 64 != 0 {
        return counts;
    }
    Counts {
        phase: OFFERING,
        level,
        ticks: 0,
        accepted: 0,
        ..counts
    }
}

// After a tick of the stretch.
#[tactic(auto, unfolding(crate::specs::Phases::ticked))]
fn tick(counts: Counts, d: u32) -> Counts
    ensures { result ≡ ticked counts d }
{
    Counts {
        ticks: rise(counts.ticks),
        phase: if d % 1024 == 0 { OPENING } else { OFFERING },
        ..counts
    }
}

// The counts after the call of their phase, by its answer, two of its draws, and the level that it left the client. After an
// open, and after another client's call, only the phase goes on.
#[tactic(auto, unfolding(crate::specs::Phases::turned))]
fn turn(counts: Counts, answer: Answer, c: u32, d: u32, level: u32) -> Counts
    ensures { result ≡ turned counts answer c d level }
{
    match counts.phase {
        JOINING => join(counts, c),
        PAUSING => pause(counts, d, level),
        OFFERING => offer(counts, answer),
        TICKING => tick(counts, d),
        phase => Counts {
            phase: rise(phase),
            ..counts
        },
    }
}

// The client's level, 0 on an unopened core.
fn level_of(control: Control, tables: &Tables) -> u32
    ensures { result ≡ level_in (core_of control tables.now) }
{
    if !control.opened {
        return 0;
    }
    tables.terms[(LEVEL + GREEDY) as usize]
}

// Before the first call.
fn begin(seed: u32) -> GreedyProgress
    ensures { Begins seed result }
{
    let counts = Counts {
        phase: OPENING,
        rate: 0,
        level: 0,
        ticks: 0,
        accepted: 0,
        offerings: 0,
        exact: 0,
    };
    GreedyProgress {
        progress: runs::begin(seed),
        counts,
    }
}

impl Run for GreedyProgress {
    ghost Meaning = { GreedyRun };

    ghost control = { λ p. p.progress.control };

    ghost meaning = { greedy_of };

    ghost next = { next };

    fn call_once(self, tables: &mut Tables) -> GreedyProgress {
        let draws = runs::draw(self.progress.maker);
        let call = call_in(self.counts.phase, draws.a, draws.b, draws.c, draws.d);
        let taken = runs::take(self.progress, tables, draws.maker, call);
        let level = level_of(taken.progress.control, tables);
        GreedyProgress {
            progress: taken.progress,
            counts: turn(self.counts, taken.answer, draws.c, draws.d, level),
        }
    }
}

// Prints the line of the last of so many blocks, by the same beginning as `tally`'s line; what stands behind it is this program's.
fn print_whole(rt: &impl Print, blocks: u32, check: u32, offerings: u32, exact: u32) -> Result<()> {
    tally::print_check(rt, blocks, check)?;
    println!(rt; " offerings {offerings} exact {exact})")
}

// Prints the line of the last of so many blocks, and gives whether it could be written whole. The seed stands here for the
// contract: what is printed is of its run.
fn tell(
    rt: &(impl Print + Eprint),
    seed: u32,
    blocks: u32,
    check: u32,
    offerings: u32,
    exact: u32,
) -> bool
    requires { Tells seed (blocks * block) check offerings exact }
{
    let line = print_whole(rt, blocks, check, offerings, exact);
    tally::is_whole(rt, line, "greedy: standard output")
}

// So many blocks from a seed, with a line after each. It ends at a line that could not be written. The other programs of long runs start,
// make a block and tell of it otherwise: a function that takes all three, with what they promise, is longer than the loops.
fn blocks(rt: &(impl Print + Eprint), seed: u32, count: u32, tables: &mut Tables) {
    let mut at = begin(seed);
    for before in 0..count {
        at = runs::calls(at, tables, BLOCK);
        let done = before + 1;
        if !tell(
            rt,
            seed,
            done,
            at.progress.check,
            at.counts.offerings,
            at.counts.exact,
        ) {
            return;
        }
    }
}

// The programs of long runs begin alike; what is left of each is its usage and its blocks.
fn main(rt: HostRuntime) {
    let given = arguments::numbers(arguments::count(&rt), |i| arguments::number(&rt, i));
    let Some(numbers): Option<[u32; 2]> = given else {
        let _ = eprintln!(rt; "usage: greedy SEED BLOCKS");
        return;
    };
    let [seed, count] = numbers;
    blocks(&rt, seed, count, &mut Tables::filled(0));
}
