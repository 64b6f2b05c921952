// Standard input, read to its end or to that of the bytes that are lent, and standard output. No contract can say which bytes go in and out; what
// is said is how many were read, or written.
#![tactic(auto)]

ghost use Rattle.streams.specs.Reading.{Within};
ghost use Rattle.streams.specs.Writing.{HandedOn};

use std::io::{Error, ErrorKind, Read, Result, Write};
use std::str;

// How often a read is tried that a signal interrupts each time.
const TRIES: u32 = 1000000;

// The room for the system's words for an error, with the number that std writes behind them.
const WORDS: usize = 256;

// What stands before that number.
const NUMBER: &str = " (os error ";

// One read into the room; no bytes are the end of the input. A read that a signal interrupted, before it gave a byte, is tried again.
fn read_some(input: &mut impl Read, room: &mut [u8]) -> Result<usize>
    ensures { Within result room.new }
{
    for _ in 1..TRIES {
        match input.read(room) {
            Err(error) if error.kind() == ErrorKind::Interrupted => {}
            got => return got,
        }
    }
    input.read(room)
}

// Reads until the room is full, the input ends or a read fails. Of std's own loops `read_to_end` asks for heap, which the project has not, and
// `read_exact` does not count what it read of a shorter input.
pub fn read_text(input: &mut impl Read, room: &mut [u8]) -> Result<usize>
    ensures { Within result room.new }
{
    let mut length: usize = 0;
    while length < room.len() {
        let more = read_some(input, &mut room[length..])?;
        if more == 0 {
            return Ok(length);
        }
        length += more;
    }
    Ok(length)
}

// Writes a whole text to a file that is open, standard output too.
pub fn write_to(file: &impl Print, text: &[u8]) -> Result<usize>
    ensures { HandedOn result text.now }
{
    file.write_all(text)?;
    Ok(text.len())
}

// Writes a line to standard error: what failed, as the caller names it, a colon and the system's words for the error.
pub fn tell(rt: &impl Eprint, what: &str, error: Error) {
    let mut room = [0u8; WORDS];
    let mut rest = &mut room[..];
    let _ = write!(rest, "{error}");
    let length = WORDS.saturating_sub(rest.len());
    let text = str::from_utf8(&room[..length]).unwrap_or("");
    let words = match text.rsplit_once(NUMBER) {
        Some((words, _)) => words,
        None => text,
    };
    let _ = eprintln!(rt; "{what}: {words}");
}
