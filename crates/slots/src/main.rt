// Reads a script from standard input and writes its printout, the operator's sheet or a tenant's, or the forecast or the count sheets
// behind it. What is written is decided in `script`, in `forecast` and in `bill`.
#![tactic(auto)]

ghost use Rattle.std.specs.Prelude.{◌≡◌, length};
ghost use Rattle.grammar.specs.Printout.{printout_for};
ghost use Rattle.grammar.specs.Forecast.{forecast_behind};
ghost use Rattle.grammar.specs.CountLines.{counts_printed};
ghost use Rattle.script.specs.Pieces.{Start};
ghost use Rattle.streams.specs.Writing.{HandedOn};
ghost use Rattle.slots.specs.PieceRoom.{piece_room};
ghost use Rattle.parser.specs.Words.{word_of};
ghost use Rattle.slots.specs.Requests.{usage, alone, numbered, asked, requested};

use arguments::ARGUMENT;
use grammar::Audience;
use script::Progress;
use std::env::Env;
use std::io::Error;
use tables::Tables;

// The program's name alone; with it an option; and with it an option and its number.
const NO_ARGUMENTS: usize = 1;

const OPTION: usize = 2;

const NUMBERED: usize = 3;

// What the arguments ask for.
#[derive(Clone, Copy)]
enum Request {
    Printout { audience: Audience },
    Forecast { ticks: u32 },
    Bill,
    Help,
    Unknown,
}

// Writes what the start of a script left in the buffer, and piece by piece what is behind it, to the end of the text or a write
// that fails.
fn write_pieces(
    rt: &impl Print,
    audience: Audience,
    text: &[u8],
    out: &mut [u8],
    first: Progress,
    tables: &mut Tables,
) -> Result<usize, Error>
    requires { Start text.now out.old first × (piece_room ≡ length out.old) }
    ensures { HandedOn result (printout_for audience text.now) }
{
    let mut control = first.control;
    let mut at = first.next;
    let mut written = first.written;
    let mut total = written;
    loop {
        rt.write_all(&out[..written])?;
        if at >= text.len() {
            return Ok(total);
        }
        let piece = script::piece(audience, text, at, out, control, tables);
        control = piece.control;
        at = piece.next;
        written = piece.written;
        total += written;
    }
}

// Writes the printout of a text for an audience, on tables of its own.
fn write_printout(rt: &impl Print, audience: Audience, text: &[u8]) -> Result<usize, Error>
    ensures { HandedOn result (printout_for audience text.now) }
{
    let mut tables = Tables::filled(0);
    let mut out = io::buffer();
    let first = script::start(text, &mut out);
    write_pieces(rt, audience, text, &mut out, first, &mut tables)
}

// Each of the three contracts is an equation with a definition of its own: a function over all would take that as a parameter.
// Writes the forecast behind a text, on tables of its own.
fn write_forecast(rt: &impl Print, text: &[u8], ticks: u32) -> Result<usize, Error>
    ensures { HandedOn result (forecast_behind text.now ticks) }
{
    let mut tables = Tables::filled(0);
    let mut out = io::buffer();
    let written = forecast::forecast(text, ticks, &mut out, &mut tables);
    streams::write_to(rt, &out[..written])
}

// Writes the count sheets behind a text, on tables of its own. The buffer has room for the line of every id.
fn write_bill(rt: &impl Print, text: &[u8]) -> Result<usize, Error>
    ensures { HandedOn result (counts_printed text.now) }
{
    let mut tables = Tables::filled(0);
    let mut out = io::large_buffer();
    let written = bill::bill(text, &mut out, &mut tables);
    streams::write_to(rt, &out[..written])
}

// Writes the line of usage.
fn write_usage(file: &impl Print) -> Result<usize, Error>
    ensures { HandedOn result usage }
{
    streams::write_to(
        file,
        b"usage: slots [--sure N | --operator | --tenant I | --counts | --help]\n",
    )
}

// Writes what is asked for.
fn write_requested(rt: &impl Print, text: &[u8], request: Request) -> Result<usize, Error>
    ensures { HandedOn result (requested request text.now) }
{
    match request {
        Request::Printout { audience } => write_printout(rt, audience, text),
        Request::Forecast { ticks } => write_forecast(rt, text, ticks),
        Request::Bill => write_bill(rt, text),
        Request::Help => write_usage(rt),
        Request::Unknown => Ok(0),
    }
}

// Options are compared by `==`: of a `match` on the bytes ten of 28 branches did not close.
// What an option alone asks for.
#[tactic(auto, using(crate::proofs::OptionBytes::same_bytes_lem), unfolding(crate::specs::Requests::alone))]
fn option_alone(option: &[u8]) -> Request
    ensures { result ≡ alone option.now }
{
    if option == b"--operator".as_slice() {
        return Request::Printout {
            audience: Audience::Operator,
        };
    }
    if option == b"--counts".as_slice() {
        return Request::Bill;
    }
    if option == b"--help".as_slice() {
        return Request::Help;
    }
    Request::Unknown
}

// What an option with a number asks for.
#[tactic(auto, using(crate::proofs::OptionBytes::same_bytes_lem), unfolding(crate::specs::Requests::numbered))]
fn option_with(option: &[u8], value: u32) -> Request
    ensures { result ≡ numbered option.now value }
{
    if option == b"--sure".as_slice() {
        return Request::Forecast { ticks: value };
    }
    if option == b"--tenant".as_slice() {
        return Request::Printout {
            audience: Audience::Tenant { id: value },
        };
    }
    Request::Unknown
}

// What the arguments ask for, of which there are so many, the program's name among them.
#[tactic(auto, unfolding(crate::specs::Requests::asked))]
fn request_of(count: usize, option: &[u8], number: &[u8]) -> Request
    ensures { result ≡ asked count option.now (word_of number.now) }
{
    match count {
        0 | NO_ARGUMENTS => Request::Printout {
            audience: Audience::Caller,
        },
        OPTION => option_alone(option),
        NUMBERED => match parser::number(number) {
            Some(value) => option_with(option, value),
            None => Request::Unknown,
        },
        _ => Request::Unknown,
    }
}

// No contract can say what the arguments are.
fn read_arguments(rt: &impl Env) -> Request {
    let mut option = [0u8; ARGUMENT];
    let mut number = [0u8; ARGUMENT];
    request_of(
        arguments::count(rt),
        arguments::read(rt, 1, &mut option),
        arguments::read(rt, 2, &mut number),
    )
}

// Does what is asked for, or gives what failed, and why. The room for the text is more than the longest that is read, so that a longer
// one is seen to be longer. Like that of fair, but for the words and what is written. It is not drawn into `main`: the usage line would
// need the stack of its tables and texts too.
#[inline(never)]
fn run(rt: &HostRuntime, request: Request) -> Result<usize, (&'static str, Error)> {
    let mut text = io::large_buffer();
    let length = match request {
        Request::Help => 0,
        _ => {
            let read = streams::read_text(&mut rt.stdin(), &mut text);
            read.map_err(|error| ("slots: standard input", error))?
        }
    };
    let written = write_requested(rt, &text[..length], request);
    written.map_err(|error| ("slots: standard output", error))
}

// The exit status says nothing: what cannot be read or written is told on standard error.
fn main(rt: HostRuntime) {
    let request = read_arguments(&rt);
    if let Request::Unknown = request {
        let _ = write_usage(&rt.stderr());
        return;
    }
    if let Err((what, error)) = run(&rt, request) {
        streams::tell(&rt, what, error);
    }
}
