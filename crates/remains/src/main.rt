// Makes long runs on tables with remains of other numbers, and prints the check of their answers as `longrun` does. The
// arguments are the seed, how many blocks, the number that is written wherever no packet waits, and the seed of an earlier
// history on the same core, or 0 for none.
#![tactic(auto)]

ghost use Rattle.std.specs.Prelude.{◌≡◌, ◌*◌, ◌%◌, ◌<◌};
ghost use Rattle.order.specs.Order.{sentinel};
ghost use Rattle.tables.specs.Tables.{filled};
ghost use Rattle.tables.specs.Invariant.{Valid};
ghost use Rattle.runs.specs.LongRun.{block, further};
ghost use Rattle.runs.specs.Stands.{Goes};
ghost use Rattle.remains.specs.Remains.{waits_at, overwritten_at, overwritten_unused};
ghost use Rattle.remains.specs.Started.{stretch, started, Starts};

use counts::COUNTS;
use definitions::PLACES;
use order::{END, LINKS};
use runs::Progress;
use tables::{COUNT, HEAD, STOCKS, STORE, TERMS, Tables};
use tally::BLOCK;

// How many calls are made between two overwritings, and how many such stretches a block has.
const STRETCH: u32 = 1000;

const STRETCHES: u32 = BLOCK / STRETCH;

// Whether a packet waits at a place. Before the first open anything stands in the stocks.
#[tactic(auto, unfolding(definitions::specs::Sizes::ids, definitions::specs::Sizes::places, order::specs::Order::sentinel, order::specs::Owner::owner, tables::specs::Tables::field, crate::specs::Remains::behind_head, crate::specs::Remains::waits_at))]
fn waits_at(stocks: &[u32; STOCKS], place: u32) -> bool
    requires { place < sentinel }
    ensures { result ≡ waits_at stocks.now place }
{
    let id = place / PLACES;
    let head = stocks[(HEAD + id) as usize];
    let count = stocks[(COUNT + id) as usize];
    let behind = (place % PLACES + (PLACES - head % PLACES)) % PLACES;
    behind < count
}

// A number as a length of the tables can hold it.
fn lower_half(number: u32) -> u16
    ensures { result ≡ number % 65536 }
{
    (number % 65536) as u16
}

// Two arrays, as the tables have them, gone through by place, as the definition `overwritten_unused` is.
// Overwrites one place, unless a packet waits there.
#[tactic(auto, unfolding(definitions::specs::Sizes::ids, definitions::specs::Sizes::places, order::specs::Order::sentinel, crate::specs::Remains::overwritten_at))]
fn overwrite_at(
    stocks: &[u32; STOCKS],
    handles: &mut [u64; STORE],
    lengths: &mut [u16; STORE],
    place: u32,
    handle: u64,
    length: u16,
)
    requires { place < sentinel }
    ensures handles_after { handles.new ≡ overwritten_at stocks.now handle place handles.old }
    ensures lengths_after { lengths.new ≡ overwritten_at stocks.now length place lengths.old }
{
    if waits_at(stocks, place) {
        return;
    }
    let at = place as usize;
    handles[at] = handle;
    lengths[at] = length;
}

// Overwrites every place where no packet waits.
#[tactic(auto, unfolding(definitions::specs::Sizes::ids, definitions::specs::Sizes::places, order::specs::Order::sentinel, crate::specs::Remains::overwritten_below, crate::specs::Remains::overwritten_unused))]
fn overwrite_unused(
    stocks: &[u32; STOCKS],
    handles: &mut [u64; STORE],
    lengths: &mut [u16; STORE],
    handle: u64,
    length: u16,
)
    ensures handles_after { handles.new ≡ overwritten_unused stocks.now handle handles.old }
    ensures lengths_after { lengths.new ≡ overwritten_unused stocks.now length lengths.old }
{
    for place in 0..END {
        overwrite_at(stocks, handles, lengths, place, handle, length);
    }
}

// Makes a stretch of calls, and overwrites what they left where no packet waits.
fn stretch(progress: Progress, tables: &mut Tables, number: u32) -> Progress
    requires { Valid progress.control tables.old }
    ensures { Goes stretch progress tables.old result tables.new }
{
    let at = runs::calls(progress, tables, STRETCH);
    overwrite_unused(
        &tables.stocks,
        &mut tables.handles,
        &mut tables.lengths,
        u64::from(number),
        lower_half(number),
    );
    at
}

// Makes the calls of a block.
fn block(progress: Progress, tables: &mut Tables, number: u32) -> Progress
    requires { Valid progress.control tables.old }
    ensures { Goes block progress tables.old result tables.new }
{
    let mut at = progress;
    for _ in 0..STRETCHES {
        at = stretch(at, tables, number);
    }
    at
}

// Where a run starts: on an unopened core, or on the one that a block of calls from an earlier seed left.
fn start(earlier: u32, seed: u32, tables: &mut Tables) -> Progress
    ensures { Starts earlier seed result tables.new }
{
    if earlier == 0 {
        return runs::begin(seed);
    }
    let first = runs::begin(earlier);
    let left = runs::calls(first, tables, BLOCK);
    Progress {
        control: left.control,
        ..runs::begin(seed)
    }
}

// Prints the line of the last of so many blocks. The seeds stand here for the contract: what is printed is their check.
fn tell(rt: &(impl Print + Eprint), earlier: u32, seed: u32, blocks: u32, check: u32) -> bool
    requires { check ≡ (further (blocks * block) (started earlier seed)).check }
{
    tally::print_line(rt, blocks, check, "remains: standard output")
}

// So many blocks from a seed, with a line after each. It ends at a line that could not be written. The other programs of long runs start,
// make a block and tell of it otherwise: a function that takes all three, with what they promise, is longer than the loops.
fn blocks(
    rt: &(impl Print + Eprint),
    earlier: u32,
    seed: u32,
    count: u32,
    tables: &mut Tables,
    number: u32,
) {
    let mut at = start(earlier, seed, tables);
    for before in 0..count {
        at = block(at, tables, number);
        let done = before + 1;
        if !tell(rt, earlier, seed, done, at.check) {
            return;
        }
    }
}

// Fills the tables with a number where they lie. `Tables::filled` would do, but of a number that is no constant it takes the stack of four
// such tables: the compiler makes the arrays and copies them.
fn fill(tables: &mut Tables, number: u32)
    ensures { tables.new ≡ filled number }
{
    tables.terms = [number; TERMS];
    tables.stocks = [number; STOCKS];
    tables.handles = [number as u64; STORE];
    tables.lengths = [lower_half(number); STORE];
    tables.links = [number; LINKS];
    tables.counts = [number as u64; COUNTS];
}

// A run on tables of its own, which hold a number throughout. It is not drawn into `main`: the usage line would need their stack too.
#[inline(never)]
fn run(rt: &(impl Print + Eprint), seed: u32, count: u32, number: u32, earlier: u32) {
    let mut tables = Tables::filled(0);
    fill(&mut tables, number);
    blocks(rt, earlier, seed, count, &mut tables, number);
}

// The programs of long runs begin alike; what is left of each is its usage and its blocks.
fn main(rt: HostRuntime) {
    let given = arguments::numbers(arguments::count(&rt), |i| arguments::number(&rt, i));
    let Some(numbers): Option<[u32; 4]> = given else {
        let _ = eprintln!(rt; "usage: remains SEED BLOCKS NUMBER EARLIER");
        return;
    };
    let [seed, count, number, earlier] = numbers;
    run(&rt, seed, count, number, earlier);
}
