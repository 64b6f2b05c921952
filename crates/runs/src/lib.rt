// Long runs: calls made from a seed, and a running check of their answers.
#![tactic(auto)]

ghost use Rattle.std.specs.Prelude.{◌≡◌};
ghost use Rattle.tables.specs.Invariant.{Valid};
ghost use Rattle.runs.specs.Calls.{by_upper, id_of, rate_of, burst_of, packet_of, traffic_at, call_at, k_of, quiet_after};
ghost use Rattle.runs.specs.Check.{mix, check_with};
ghost use Rattle.tables.specs.declared.Control.{Control};
ghost use Rattle.tables.specs.declared.Tables.{Tables};
ghost use Rattle.runs.specs.LongRun.{LongRun, next};
ghost use Rattle.runs.specs.Advance.{Advances};
ghost use Rattle.runs.specs.Stands.{Begins, Drawn, Takes, run_of};

use definitions::{Answer, INDIFFERENT, Outcome, Packet};
use generator::Generator;
use grammar::Call;
use tables::{Control, Tables};

// One more than the largest number of 32 bits. A handle is made of two draws, and gives the check two words.
const WORD: u64 = 4294967296;

// The maker of calls: the generator that it draws from, and whether the time is quiet.
#[derive(Clone, Copy)]
pub struct Maker {
    pub generator: Generator,
    pub quiet: bool,
}

// How far a long run has come, beside its tables: the core's control, the maker of calls, and the check.
#[derive(Clone, Copy)]
pub struct Progress {
    pub control: Control,
    pub maker: Maker,
    pub check: u32,
}

// The four draws that a call takes, and the maker of calls as they leave it.
#[derive(Clone, Copy)]
pub struct Draws {
    pub a: u32,
    pub b: u32,
    pub c: u32,
    pub d: u32,
    pub maker: Maker,
}

// What a call gives: how far the run has come with it, and its answer.
#[derive(Clone, Copy)]
pub struct Taken {
    pub progress: Progress,
    pub answer: Answer,
}

// One of two numbers, as the upper half of a draw is odd or even.
#[tactic(auto, unfolding(crate::specs::Calls::by_upper))]
fn by_upper(v: u32, odd: u32, even: u32) -> u32
    ensures { result ≡ by_upper v odd even }
{
    if v / 65536 % 2 == 1 { odd } else { even }
}

fn id_of(b: u32) -> u32
    ensures { result ≡ id_of b }
{
    by_upper(b, b % 66, b % 8)
}

// A rate of client 0 may be so large that its bucket fills again while packets of others go out, and its queue gets full.
#[tactic(auto, unfolding(crate::specs::Calls::rate_of))]
fn rate_of(id: u32, d: u32) -> u32
    ensures { result ≡ rate_of id d }
{
    if id == 0 { d % 1025 } else { d % 17 }
}

#[tactic(auto, unfolding(crate::specs::Calls::burst_of))]
fn burst_of(kind: u32, d: u32) -> u32
    ensures { result ≡ burst_of kind d }
{
    let burst = d / 64 % 66;
    if kind == INDIFFERENT {
        by_upper(d, burst, 64)
    } else {
        burst / 65
    }
}

pub fn packet_of(c: u32, d: u32) -> Packet
    ensures { result ≡ packet_of c d }
{
    Packet {
        handle: u64::from(c) * WORD + u64::from(d),
        length: 63 + c % 1457,
    }
}

// A load, an arrival or a tick.
#[tactic(auto, unfolding(crate::specs::Calls::traffic_at))]
fn traffic_of(quiet: bool, k: u32, id: u32, c: u32, d: u32) -> Call
    ensures { result ≡ traffic_at quiet k id c d }
{
    if k <= 1764 {
        return Call::Load {
            id,
            dummies: c % 130,
        };
    }
    if k <= 15600 && !quiet {
        let packet = packet_of(c, d);
        return Call::Arrive { id, packet };
    }
    Call::Tick
}

// The k of a call, from its first draw.
fn k_of(a: u32) -> u32
    ensures { result ≡ k_of a }
{
    a % 16384
}

// Whether the time is quiet after a call.
#[tactic(auto, unfolding(crate::specs::Calls::quiet_after))]
fn quiet_after(k: u32, quiet: bool) -> bool
    ensures { result ≡ quiet_after k quiet }
{
    if k >= 16380 { !quiet } else { quiet }
}

#[tactic(auto, unfolding(crate::specs::LongRun::nth_draw))]
pub fn draw(maker: Maker) -> Draws
    ensures { Drawn maker result }
{
    let a = maker.generator.step();
    let b = a.step();
    let c = b.step();
    let d = c.step();
    let next = Maker {
        generator: d,
        quiet: quiet_after(k_of(a.value), maker.quiet),
    };
    Draws {
        a: a.value,
        b: b.value,
        c: c.value,
        d: d.value,
        maker: next,
    }
}

// The call of the table at k, in a busy time or in a quiet one.
#[tactic(auto, unfolding(crate::specs::Calls::call_at))]
pub fn call_of(quiet: bool, k: u32, b: u32, c: u32, d: u32) -> Call
    ensures { result ≡ call_at quiet k b c d }
{
    if k == 0 {
        let seed = d % 6 * 316840187;
        return Call::Open {
            threshold: by_upper(b, b % 1026, 1024),
            discipline: c % 3,
            seed,
        };
    }
    let id = id_of(b);
    let kind = c % 3;
    let rate = rate_of(id, d);
    let burst = burst_of(kind, d);
    if k <= 640 {
        return Call::Join {
            id,
            kind,
            rate,
            burst,
        };
    }
    if k <= 720 {
        return Call::Change {
            id,
            kind,
            rate,
            burst,
        };
    }
    if k <= 740 {
        return Call::Leave { id };
    }
    traffic_of(quiet, k, id, c, d)
}

#[tactic(auto, unfolding(crate::specs::Check::mix))]
fn mix(h: u32, w: u32) -> u32
    ensures { result ≡ mix h w }
{
    Generator::new(h.wrapping_add(w)).step().value
}

#[tactic(auto, unfolding(crate::specs::Check::check_with, crate::specs::Check::words, crate::specs::Check::slot_words, crate::specs::Check::mixed))]
fn check_slot(h: u32, outcome: Outcome) -> u32
    ensures { result ≡ check_with h (Answer.Slot outcome) }
{
    match outcome {
        Outcome::Real {
            id,
            packet,
            padding,
        } => {
            let named = mix(mix(h, 3), id);
            // each half has 32 bits, so that u32::try_from would have an arm that never runs
            let low = mix(named, (packet.handle % WORD) as u32);
            let high = mix(low, (packet.handle / WORD) as u32);
            mix(mix(high, packet.length), padding)
        }
        Outcome::Dummy { id } => mix(mix(h, 4), id),
        Outcome::Idle { id } => mix(mix(h, 5), id),
        Outcome::None => mix(h, 6),
    }
}

// The check with an answer's words mixed in.
#[tactic(auto, unfolding(crate::specs::Check::check_with, crate::specs::Check::words, crate::specs::Check::mixed))]
fn check(h: u32, answer: Answer) -> u32
    ensures { result ≡ check_with h answer }
{
    match answer {
        Answer::Accepted => mix(h, 1),
        Answer::Refused { number } => mix(mix(h, 2), number),
        Answer::Slot { outcome } => check_slot(h, outcome),
    }
}

// Before the first call.
pub fn begin(seed: u32) -> Progress
    ensures { Begins seed result }
{
    let maker = Maker {
        generator: Generator::new(seed),
        quiet: false,
    };
    Progress {
        control: opening::unopened(),
        maker,
        check: 0,
    }
}

// Carries a call out, and mixes its answer into the check. The maker is as the call's draws have left it.
pub fn take(progress: Progress, tables: &mut Tables, maker: Maker, call: Call) -> Taken
    requires { Valid progress.control tables.old }
    ensures { Takes call maker progress tables.old result tables.new }
{
    let answered = script::perform(progress.control, tables, call);
    let control = answered.control;
    let answer = answered.answer;
    let next = Progress {
        control,
        maker,
        check: check(progress.check, answer),
    };
    Taken {
        progress: next,
        answer,
    }
}

// A run of calls, and what one call more makes of what it stands for.
pub trait Run: Copy {
    ghost Meaning: { Type 0 };

    ghost control: { Self → Control };

    ghost meaning: { Self → Tables → Meaning };

    ghost next: { Meaning → Meaning };

    // Makes one call.
    fn call_once(self, tables: &mut Tables) -> Self
        requires { Valid (control self) tables.old }
        ensures { Advances control meaning next 1 self
            tables.old result
            tables.new };
}

impl Run for Progress {
    ghost Meaning = { LongRun };

    ghost control = { λ p. p.control };

    ghost meaning = { run_of };

    ghost next = { next };

    fn call_once(self, tables: &mut Tables) -> Progress {
        let draws = draw(self.maker);
        let call = call_of(self.maker.quiet, k_of(draws.a), draws.b, draws.c, draws.d);
        take(self, tables, draws.maker, call).progress
    }
}

// Makes so many calls.
pub fn calls<R: Run>(run: R, tables: &mut Tables, count: u32) -> R
    requires { Valid (R.control run) tables.old }
    ensures { Advances R.control R.meaning R.next count run tables.old result tables.new }
{
    let mut at = run;
    for _ in 0..count {
        at = at.call_once(tables);
    }
    at
}
