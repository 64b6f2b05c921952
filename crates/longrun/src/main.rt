// Makes long runs of calls and prints the check of their answers: the first argument is the seed, the second how many blocks.
// What is called and what is checked is decided in `runs`.
#![tactic(auto)]

ghost use Rattle.std.specs.Prelude.{◌≡◌, ◌*◌};
ghost use Rattle.runs.specs.LongRun.{block, after};

use tables::Tables;
use tally::BLOCK;

// Prints the line of the last of so many blocks. The seed stands here for the contract: what is printed is its check.
fn tell(rt: &(impl Print + Eprint), seed: u32, blocks: u32, check: u32) -> bool
    requires { check ≡ (after seed (blocks * block)).check }
{
    tally::print_line(rt, blocks, check, "longrun: standard output")
}

// So many blocks from a seed, with a line after each. It ends at a line that could not be written. The other programs of long runs start,
// make a block and tell of it otherwise: a function that takes all three, with what they promise, is longer than the loops.
fn blocks(rt: &(impl Print + Eprint), seed: u32, count: u32, tables: &mut Tables) {
    let mut at = runs::begin(seed);
    for before in 0..count {
        at = runs::calls(at, tables, BLOCK);
        let done = before + 1;
        if !tell(rt, seed, done, at.check) {
            return;
        }
    }
}

// The programs of long runs begin alike; what is left of each is its usage and its blocks.
fn main(rt: HostRuntime) {
    let given = arguments::numbers(arguments::count(&rt), |i| arguments::number(&rt, i));
    let Some(numbers): Option<[u32; 2]> = given else {
        let _ = eprintln!(rt; "usage: longrun SEED BLOCKS");
        return;
    };
    let [seed, count] = numbers;
    blocks(&rt, seed, count, &mut Tables::filled(0));
}
