// What no round of `bench` has, exported to C: opens, and leaves and changes of kind with packets waiting. It stands in a crate
// of its own, since the compiler inlines a tick into the rounds of `bench` only where nothing else there calls them.
#![tactic(auto)]

ghost use Rattle.std.specs.Prelude.{◌≡◌, ◌<◌, ◌≤◌};
ghost use Rattle.tables.specs.Invariant.{Valid};
ghost use Rattle.tables.specs.Places.{PlacesStand};

use bench::{Stage, Tally};
use definitions::{BURST_LIMIT, FIRST_COME, IDS, INDIFFERENT, PRIVATE, SHARES};
use tables::{Answered, Control, Tables};

// The rates of the clients to be emptied, together.
const OWN_RATES: u32 = 768;

// The others, the crowd, get a small rate each, and a full bucket after so many ticks.
const CROWD_RATE: u32 = 5;

const CROWD_TICKS: u32 = BURST_LIMIT * SHARES / CROWD_RATE + 1;

// Which clients are emptied, and how: so many, of a kind and with a rate, to whom packets come, first some at once and then in
// rounds. They change to the new kind, or leave where there is none.
#[derive(Clone, Copy)]
pub struct Plan {
    pub clients: u32,
    pub kind: u32,
    pub rate: u32,
    pub each: u32,
    pub filling: u32,
    pub to: Option<u32>,
    pub burst: u32,
}

fn burst_of(kind: u32) -> u32 {
    if kind == INDIFFERENT { BURST_LIMIT } else { 0 }
}

// The others join as indifferent clients and wait, without packets, until their buckets are full.
fn crowd(plan: Plan) -> Stage
    ensures { result.from < result.to }
{
    Stage {
        first: plan.clients,
        end: IDS,
        kind: INDIFFERENT,
        rate: CROWD_RATE,
        burst: BURST_LIMIT,
        each: 0,
        from: IDS,
        to: IDS + CROWD_TICKS,
        rounds: CROWD_TICKS,
    }
}

// The clients to be emptied join. Of the packets that come to every queue the crowd takes a bucketful; an indifferent client's
// bucket is empty then, and fills while those go out, since they were accepted before its own.
fn own(plan: Plan) -> Stage
    requires { 1 ≤ plan.clients }
    ensures { result.from < result.to }
{
    Stage {
        first: 0,
        end: plan.clients,
        kind: plan.kind,
        rate: plan.rate,
        burst: burst_of(plan.kind),
        each: plan.each,
        from: 0,
        to: plan.clients,
        rounds: plan.filling,
    }
}

// An open core.
fn begin(tables: &mut Tables) -> Control
    ensures { Valid result tables.new }
{
    let shut = opening::unopened();
    opening::open(shut, tables, SHARES, FIRST_COME, 1).control
}

// A call's answer goes into the sum.
fn tallied(sum: u64, answered: Answered) -> Tally
    ensures { result.control ≡ answered.control }
{
    Tally {
        control: answered.control,
        sum: bench::add(sum, answered.answer),
    }
}

// One client leaves, or changes to the new kind.
fn empty(control: Control, tables: &mut Tables, id: u32, plan: Plan) -> Answered
    requires { Valid control tables.old }
    ensures valid { Valid result.control tables.new }
    ensures stand { PlacesStand tables.old
        tables.new }
{
    let Tables {
        terms,
        stocks,
        handles,
        lengths,
        links,
        counts,
    } = tables;
    match plan.to {
        None => settings::leave(control, terms, stocks, handles, lengths, links, counts, id),
        Some(kind) => settings::change(
            control, terms, stocks, handles, lengths, links, counts, id, kind, plan.rate,
            plan.burst,
        ),
    }
}

// The clients below the end are emptied, one after the other.
fn empty_ids(control: Control, tables: &mut Tables, end: u32, plan: Plan, before: u64) -> Tally
    requires { Valid control tables.old }
    ensures valid { Valid result.control tables.new }
    ensures stand { PlacesStand tables.old
        tables.new }
{
    let mut at = Tally {
        control,
        sum: before,
    };
    for id in 0..end {
        at = tallied(at.sum, empty(at.control, tables, id, plan));
    }
    at
}

// Rounds in which the tables are put back as they were, but for the places, which stand, and the clients are emptied.
fn empty_rounds(control: Control, tables: &mut Tables, end: u32, plan: Plan, rounds: u32) -> Tally
    requires { Valid control tables.old }
    ensures { Valid result.control tables.new }
{
    let kept_terms = tables.terms;
    let kept_stocks = tables.stocks;
    let kept_links = tables.links;
    let kept_counts = tables.counts;
    let mut at = Tally { control, sum: 0 };
    for _ in 0..rounds {
        tables.terms = kept_terms;
        tables.stocks = kept_stocks;
        tables.links = kept_links;
        tables.counts = kept_counts;
        at = empty_ids(control, tables, end, plan, at.sum);
    }
    at
}

// The crowd and the clients to be emptied, on a fresh core.
fn set_up(tables: &mut Tables, plan: Plan) -> Tally
    requires { 1 ≤ plan.clients }
    ensures { Valid result.control tables.new }
{
    let first = crowd(plan);
    let second = own(plan);
    let begun = begin(tables);
    let at = bench::run_stage(begun, tables, IDS, first);
    bench::run_stage(at.control, tables, IDS, second)
}

// The rounds, and behind them an arrival for each client, with a tick: the answers tell who has room, and what was written is read.
fn emptying(tables: &mut Tables, plan: Plan, end: u32, rounds: u32) -> u64
    requires { 1 ≤ plan.clients }
{
    let n = plan.clients;
    let a = set_up(tables, plan);
    let b = empty_rounds(a.control, tables, end, plan, rounds);
    let c = bench::traffic_rounds(b.control, tables, 0, n, n);
    a.sum.wrapping_add(b.sum).wrapping_add(c.sum)
}

// Rounds that empty clients with packets waiting.
// What to change to is a number, and 0 for a leave: the C interface.
pub fn bench_emptying(
    clients: u32,
    kind: u32,
    each: u32,
    filling: u32,
    to: u32,
    end: u32,
    rounds: u32,
) -> u64 {
    if clients < 1 {
        return 0;
    }
    let plan = Plan {
        clients,
        kind,
        rate: OWN_RATES / clients,
        each,
        filling,
        to: if to == 0 { None } else { Some(to) },
        burst: burst_of(to),
    };
    let mut tables = Tables::filled(0);
    emptying(&mut tables, plan, end, rounds)
}

fn open_rounds(control: Control, tables: &mut Tables, rounds: u32) -> Tally
    requires { Valid control tables.old }
    ensures { Valid result.control tables.new }
{
    let mut at = Tally { control, sum: 0 };
    for k in 0..rounds {
        let opened = opening::open(at.control, tables, SHARES, FIRST_COME, k + 1);
        at = tallied(at.sum, opened);
    }
    at
}

// The opens, and at last some calls that read what they wrote.
fn opens(tables: &mut Tables, rounds: u32) -> u64 {
    let last = Stage {
        first: 0,
        end: IDS,
        kind: PRIVATE,
        rate: 1,
        burst: 0,
        each: 1,
        from: 0,
        to: IDS,
        rounds: IDS,
    };
    let begun = begin(tables);
    let a = open_rounds(begun, tables, rounds);
    let b = bench::run_stage(a.control, tables, IDS, last);
    a.sum.wrapping_add(b.sum)
}

// Tables at a multiple of 16 bytes. An open fills them by stores of 16 bytes, which take longer where they lie across two lines of the cache.
#[derive(Drop)]
struct Aligned {
    start: u128,
    tables: Tables,
}

// Rounds of opening anew.
pub fn bench_opening(rounds: u32) -> u64 {
    let mut aligned = Aligned {
        start: 0,
        tables: Tables::filled(0),
    };
    opens(&mut aligned.tables, rounds)
}
