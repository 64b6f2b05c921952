// Reads a text of demands from standard input and writes the lines of their rates (paper 02, S-8). What is written is decided in
// `fairsheet`.
#![tactic(auto)]

ghost use Rattle.std.specs.Prelude.{◌≡◌, leb};
ghost use Rattle.grammar.specs.FairSheet.{fair_printout};
ghost use Rattle.streams.specs.Writing.{HandedOn};

use fairsheet::SHEET_ROOM;
use std::io::Error;

// The program's name alone.
const NO_ARGUMENTS: usize = 1;

// Whether so many arguments, the program's name among them, are none.
fn has_none(count: usize) -> bool
    ensures { result ≡ leb count 1 }
{
    count <= NO_ARGUMENTS
}

// Writes the printout of a text, with room for the lines of all rates.
fn write_printout(rt: &impl Print, text: &[u8]) -> Result<usize, Error>
    ensures { HandedOn result (fair_printout text.now) }
{
    let mut out: [u8; SHEET_ROOM] = [0; SHEET_ROOM];
    let written = fairsheet::print(text, &mut out);
    streams::write_to(rt, &out[..written])
}

// Reads the text and writes its printout, or gives what failed, and why. The room for the text is more than the longest that is read, so
// that a longer one is seen to be longer. Like that of slots, but for the words and what is written.
fn run(rt: &HostRuntime) -> Result<usize, (&'static str, Error)> {
    let mut text = io::large_buffer();
    let read = streams::read_text(&mut rt.stdin(), &mut text);
    let length = read.map_err(|error| ("fair: standard input", error))?;
    write_printout(rt, &text[..length]).map_err(|error| ("fair: standard output", error))
}

// What cannot be read or written is told on standard error.
fn main(rt: HostRuntime) {
    if !has_none(arguments::count(&rt)) {
        let _ = eprintln!(rt; "usage: fair");
        return;
    }
    if let Err((what, error)) = run(&rt) {
        streams::tell(&rt, what, error);
    }
}
