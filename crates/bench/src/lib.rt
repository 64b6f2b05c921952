// The benchmark's sequences over the proved calls, exported to C. The same sequences stand in bench/ in C.
#![tactic(auto)]

ghost use Rattle.std.specs.Prelude.{◌≡◌, ◌*◌, ◌<◌, ◌≤◌, length};
ghost use Rattle.definitions.specs.Sizes.{ids};
ghost use Rattle.tables.specs.Invariant.{Valid};

use definitions::{Answer, IDS, INDIFFERENT, Outcome, PRIVATE, Packet};
use tables::{Control, Tables};

// The longest list of demands.
const LISTED: usize = IDS as usize;

// What a stretch of calls leaves: the control, and a sum over the answers.
#[derive(Clone, Copy)]
pub struct Tally {
    pub control: Control,
    pub sum: u64,
}

// A stage of a sequence: ids join, with their terms; some packets come into each queue; then rounds, with arrivals for ids from
// one up to another.
#[derive(Clone, Copy)]
pub struct Stage {
    pub first: u32,
    pub end: u32,
    pub kind: u32,
    pub rate: u32,
    pub burst: u32,
    pub each: u32,
    pub from: u32,
    pub to: u32,
    pub rounds: u32,
}

// A number for each answer; the sum of them is what both implementations must agree on.
fn code(answer: Answer) -> u64 {
    match answer {
        Answer::Accepted => 1,
        Answer::Refused { number } => 2 + u64::from(number),
        Answer::Slot { outcome } => outcome_code(outcome),
    }
}

fn outcome_code(outcome: Outcome) -> u64 {
    match outcome {
        Outcome::Real {
            id,
            packet,
            padding,
        } => {
            let short = 1000
                + u64::from(id) * 7
                + u64::from(packet.length) * 5
                + u64::from(padding) * 11;
            short.wrapping_add(packet.handle.wrapping_mul(3))
        }
        Outcome::Dummy { id } => 500 + u64::from(id),
        Outcome::Idle { id } => 600 + u64::from(id),
        Outcome::None => 700,
    }
}

// Joins the ids from the first up to the end, each with the same terms.
fn join_ids(
    control: Control,
    tables: &mut Tables,
    first: u32,
    end: u32,
    kind: u32,
    rate: u32,
    burst: u32,
) -> Control
    requires { Valid control tables.old }
    ensures { Valid result tables.new }
{
    let Tables {
        terms,
        stocks,
        handles,
        lengths,
        links,
        counts,
    } = tables;
    let mut at = control;
    for id in first..end {
        at = settings::join(
            at, terms, stocks, handles, lengths, links, counts, id, kind, rate, burst,
        )
        .control;
    }
    at
}

// Puts some packets into one queue.
fn fill_queue(control: Control, tables: &mut Tables, id: u32, each: u32) -> Control
    requires { Valid control tables.old }
    ensures { Valid result tables.new }
{
    let mut at = control;
    for _ in 0..each {
        at = traffic::arrive(at, tables, id, packet(id, 64)).control;
    }
    at
}

// Puts some packets into each queue, one client after the other.
fn fill_queues(control: Control, tables: &mut Tables, n: u32, each: u32) -> Control
    requires { Valid control tables.old }
    ensures { Valid result tables.new }
{
    let mut at = control;
    for id in 0..n {
        at = fill_queue(at, tables, id, each);
    }
    at
}

pub fn add(sum: u64, answer: Answer) -> u64 {
    sum.wrapping_add(code(answer))
}

// The next of n ids or places, round and round: with a remainder in its place one compiler would divide and another count.
fn next(id: u32, n: u32) -> u32
    requires { id < n }
    ensures { result < n }
{
    let after = id + 1;
    if after < n { after } else { 0 }
}

fn packet(handle: u32, length: u32) -> Packet {
    Packet {
        handle: u64::from(handle),
        length,
    }
}

// Four calls that are refused if the first id that nobody has is 64. The compiler does not know that number, nor of any two calls that they
// are for the same id, so that it cannot work out beforehand, or once for both, whether an id is too large.
fn refused_round(
    control: Control,
    tables: &mut Tables,
    id: u32,
    other: u32,
    beyond: u32,
    k: u32,
    sum: u64,
) -> Tally
    requires { Valid control tables.old × (beyond ≤ 64) }
    ensures { Valid result.control tables.new }
{
    let no_sender = beyond + k % 8;
    let no_loader = beyond + k % 4;
    let a = traffic::arrive(control, tables, no_sender, packet(k, 64));
    let Tables {
        terms,
        stocks,
        handles,
        lengths,
        links,
        counts,
    } = tables;
    let b = traffic::load(
        a.control, terms, stocks, handles, lengths, links, counts, no_loader, k,
    );
    let c = settings::join(
        b.control, terms, stocks, handles, lengths, links, counts, id, PRIVATE, 1, 0,
    );
    let d = traffic::arrive(c.control, tables, other, packet(k, 63));
    let first = add(add(sum, a.answer), b.answer);
    Tally {
        control: d.control,
        sum: add(add(first, c.answer), d.answer),
    }
}

fn refused_rounds(control: Control, tables: &mut Tables, n: u32, beyond: u32, rounds: u32) -> Tally
    requires { Valid control tables.old × (1 ≤ n) × (beyond ≤ 64) }
    ensures { Valid result.control tables.new }
{
    let mut at = Tally { control, sum: 0 };
    let mut id: u32 = 0;
    for k in 0..rounds {
        let other = next(id, n);
        at = refused_round(at.control, tables, id, other, beyond, k, at.sum);
        id = other;
    }
    at
}

// One arrival and one tick.
fn traffic_round(control: Control, tables: &mut Tables, id: u32, k: u32, sum: u64) -> Tally
    requires { Valid control tables.old }
    ensures { Valid result.control tables.new }
{
    let a = traffic::arrive(control, tables, id, packet(k, 64 + k % 1024));
    let Tables {
        terms,
        stocks,
        handles,
        lengths,
        links,
        counts,
    } = tables;
    let b = slot::tick(a.control, terms, stocks, handles, lengths, links, counts).answered;
    Tally {
        control: b.control,
        sum: add(add(sum, a.answer), b.answer),
    }
}

pub fn traffic_rounds(
    control: Control,
    tables: &mut Tables,
    first: u32,
    n: u32,
    rounds: u32,
) -> Tally
    requires { Valid control tables.old × (first < n) }
    ensures { Valid result.control tables.new }
{
    let mut at = Tally { control, sum: 0 };
    let mut id = first;
    for k in 0..rounds {
        at = traffic_round(at.control, tables, id, k, at.sum);
        id = next(id, n);
    }
    at
}

// The first stage has the indifferent clients, and fills their buckets, which begin empty (paper 02, S-4): of burst 64 and at
// rate 1024 / n, a bucket is full after 64 * n rounds where n divides 1024, as in every sequence. Their arrivals are refused, for
// ids that nobody has. The private clients join in the second stage, so that no tick of the first makes a draw.
#[tactic(auto, unfolding(definitions::specs::Sizes::ids))]
fn stage_of(k: u32, n: u32, indifferents: u32, each: u32, rounds: u32) -> Stage
    requires { (1 ≤ n) × (n ≤ 2 * ids) }
    ensures { result.from < result.to }
{
    let rate = 1024 / n;
    if k == 0 {
        let ticks = 64 * n;
        return Stage {
            first: 0,
            end: indifferents,
            kind: INDIFFERENT,
            rate,
            burst: 64,
            each: 0,
            from: IDS,
            to: IDS + ticks,
            rounds: ticks,
        };
    }
    Stage {
        first: indifferents,
        end: n,
        kind: PRIVATE,
        rate,
        burst: 0,
        each,
        from: 0,
        to: n,
        rounds,
    }
}

pub fn run_stage(control: Control, tables: &mut Tables, n: u32, s: Stage) -> Tally
    requires { Valid control tables.old × (s.from < s.to) }
    ensures { Valid result.control tables.new }
{
    let joined = join_ids(control, tables, s.first, s.end, s.kind, s.rate, s.burst);
    let filled = fill_queues(joined, tables, n, s.each);
    traffic_rounds(filled, tables, s.from, s.to, s.rounds)
}

// Both stages, in one loop: the compiler draws a function in where it has one caller.
fn run_stages(
    control: Control,
    tables: &mut Tables,
    n: u32,
    indifferents: u32,
    each: u32,
    rounds: u32,
) -> Tally
    requires { Valid control tables.old × (1 ≤ n) × (n ≤ 2 * ids) }
    ensures { Valid result.control tables.new }
{
    let mut at = Tally { control, sum: 0 };
    for k in 0..2 {
        let s = stage_of(k, n, indifferents, each, rounds);
        at = run_stage(at.control, tables, n, s);
    }
    at
}

// A whole sequence on a fresh core: mode 0 is arrivals and ticks, mode 64 only refused calls.
#[tactic(auto, unfolding(definitions::specs::Sizes::ids))]
// The mode is a number, and what is out of range gives 0: the C interface.
pub fn bench_run(
    privates: u32,
    indifferents: u32,
    discipline: u32,
    depth: u32,
    mode: u32,
    rounds: u32,
) -> u64 {
    if IDS < privates {
        return 0;
    }
    if IDS < indifferents {
        return 0;
    }
    let n = privates + indifferents;
    if n < 1 {
        return 0;
    }
    if depth < 1 {
        return 0;
    }
    if IDS < mode {
        return 0;
    }
    let mut tables = Tables::filled(0);
    let shut = opening::unopened();
    let opened = opening::open(shut, &mut tables, 1024, discipline, 1);
    let begun = opened.control;
    let slots = mode == 0;
    let served = run_stages(
        begun,
        &mut tables,
        n,
        indifferents,
        depth - 1,
        if slots { rounds } else { 0 },
    );
    if slots {
        return served.sum;
    }
    refused_rounds(served.control, &mut tables, n, mode, rounds).sum
}

// All ids, by rising id.
fn list_ids(listed: &mut [u32; LISTED])
    ensures { length listed.new ≡ length listed.old }
{
    for id in 0..IDS {
        listed[id as usize] = id;
    }
}

// The rates of one list after the other, each with one demand set anew.
// Two lists, as `maxmin::rates` takes them.
fn fair_rounds(
    listed: &[u32],
    demands: &mut [u32],
    rates: &mut [u32],
    count: u32,
    threshold: u32,
    highest: u32,
    rounds: u32,
) -> u64
    requires { (1 ≤ count) × (length demands.old ≡ count) × (length rates.old ≡ count) × (1 ≤ highest) }
{
    let mut sum: u64 = 0;
    let mut i = 0;
    for k in 0..rounds {
        demands[i as usize] = 1 + k % 1024 * 37 % highest;
        let answer = maxmin::rates(threshold, listed, demands, rates);
        sum = add(sum, answer).wrapping_add(u64::from(rates[i as usize]));
        i = next(i, count);
    }
    sum
}

// Fair rates of lists of so many demands, none of them above the highest.
pub fn bench_fair(count: u32, threshold: u32, highest: u32, rounds: u32) -> u64 {
    if IDS < count {
        return 0;
    }
    if count < 1 {
        return 0;
    }
    if highest < 1 {
        return 0;
    }
    let n = count as usize;
    let mut listed = [0; LISTED];
    let mut demands = [1; LISTED];
    let mut rates = [0; LISTED];
    list_ids(&mut listed);
    fair_rounds(
        &listed[..n],
        &mut demands[..n],
        &mut rates[..n],
        count,
        threshold,
        highest,
        rounds,
    )
}
