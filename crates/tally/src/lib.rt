// What the programs of long runs share: the line that they print after each block.
#![tactic(auto)]

ghost use Rattle.std.specs.Prelude.{◌≡◌, ◌*◌, is_ok};
ghost use Rattle.runs.specs.LongRun.{block};

use std::io::Result;

// How many calls a block has.
pub const BLOCK: u32 = 1000000;

pub fn calls_in(blocks: u32) -> u64
    ensures { result ≡ blocks * block }
{
    u64::from(blocks) * u64::from(BLOCK)
}

// Prints how the line of the last of so many blocks begins, up to its check.
pub fn print_check(rt: &impl Print, blocks: u32, check: u32) -> Result<()> {
    let calls = calls_in(blocks);
    print!(rt; "(calls {calls} check {check}")
}

// Gives whether a line could be written whole; if not, that is told on standard error, in the program's words.
pub fn is_whole(rt: &impl Eprint, line: Result<()>, failed: &str) -> bool
    ensures { result ≡ is_ok line }
{
    match line {
        Ok(()) => true,
        Err(error) => {
            streams::tell(rt, failed, error);
            false
        }
    }
}

// Prints the line of the last of so many blocks.
fn print_whole(rt: &impl Print, blocks: u32, check: u32) -> Result<()> {
    print_check(rt, blocks, check)?;
    println!(rt; ")")
}

// Prints the line of the last of so many blocks, and gives whether it could be written whole; if not, that is told on standard
// error, in the program's words.
pub fn print_line(rt: &(impl Print + Eprint), blocks: u32, check: u32, failed: &str) -> bool {
    is_whole(rt, print_whole(rt, blocks, check), failed)
}
