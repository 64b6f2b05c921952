// A script in pieces: from a place on, each line is parsed and carried out. For the caller one line is printed in answer to it; for the
// operator, or a private tenant, only ticks print one.
#![tactic(auto)]

ghost use Rattle.std.specs.Prelude.{◌≡◌, ◌&&◌, not, leb, length, take, ◌+◌, ◌≤◌, ◌<◌};
ghost use Rattle.definitions.specs.Sameness.{is_tick};
ghost use Rattle.grammar.specs.Calls.{event_of};
ghost use Rattle.printer.specs.Printed.{line_room, LineWritten};
ghost use Rattle.reader.specs.LineSpans.{is_end};
ghost use Rattle.tables.specs.declared.Tables.{Tables};
ghost use Rattle.tables.specs.Meaning.{core_of};
ghost use Rattle.tables.specs.Invariant.{Valid};
ghost use Rattle.tables.specs.Places.{Promised};
ghost use Rattle.script.specs.Shown.{PerformedCall, unread_for, note_for, call_for};
ghost use Rattle.script.specs.Pieces.{Walked, Piece, Start};

use definitions::{Answer, Note};
use generator::Generator;
use grammar::{Audience, Call, TEXT_LIMIT, Unread};
use slot::Ticked;
use tables::{Answered, Control, Tables};

// What a text that is too long is answered with: the number of no check of a call, and so no Refusal.
const TOO_LONG: u32 = 18;

// How far a script was read: the control there, the place behind the last line, and how many bytes were written.
#[derive(Clone, Copy)]
pub struct Progress {
    pub control: Control,
    pub next: usize,
    pub written: usize,
}

// An answer beside which nothing was drawn.
fn undrawn(answered: Answered, generator: Generator) -> Ticked
    ensures { result.answered ≡ answered }
{
    Ticked {
        answered,
        sample: draw::undrawn(generator),
    }
}

// Carries a call out, and gives beside its answer what a tick drew.
fn perform_told(control: Control, tables: &mut Tables, call: Call) -> Ticked
    requires { Valid control tables.old }
    ensures { PerformedCall call control tables.old result tables.new }
{
    let generator = control.generator;
    let Tables {
        terms,
        stocks,
        handles,
        lengths,
        links,
        counts,
    } = tables;
    match call {
        Call::Open {
            threshold,
            discipline,
            seed,
        } => undrawn(
            opening::open(control, tables, threshold, discipline, seed),
            generator,
        ),
        Call::Join {
            id,
            kind,
            rate,
            burst,
        } => undrawn(
            settings::join(
                control, terms, stocks, handles, lengths, links, counts, id, kind, rate, burst,
            ),
            generator,
        ),
        Call::Change {
            id,
            kind,
            rate,
            burst,
        } => undrawn(
            settings::change(
                control, terms, stocks, handles, lengths, links, counts, id, kind, rate, burst,
            ),
            generator,
        ),
        Call::Leave { id } => undrawn(
            settings::leave(control, terms, stocks, handles, lengths, links, counts, id),
            generator,
        ),
        Call::Load { id, dummies } => undrawn(
            traffic::load(
                control, terms, stocks, handles, lengths, links, counts, id, dummies,
            ),
            generator,
        ),
        Call::Arrive { id, packet } => undrawn(
            traffic::arrive(control, tables, id, packet),
            generator,
        ),
        Call::Tick => slot::tick(control, terms, stocks, handles, lengths, links, counts),
    }
}

// Carries a call out.
pub fn perform(control: Control, tables: &mut Tables, call: Call) -> Answered
    requires { Valid control tables.old }
    ensures { Promised (event_of call) control tables.old result tables.new }
{
    let performed = perform_told(control, tables, call);
    performed.answered
}

// Writes what a line without a form shows: its number, to the caller alone.
// A buffer and a place, as crate printer takes them.
fn print_unread(audience: Audience, out: &mut [u8], at: usize, unread: Unread) -> usize
    ensures { LineWritten (unread_for audience unread) out.old at out.new result }
{
    match audience {
        Audience::Caller => printer::print_refused(out, at, unread.number()),
        Audience::Operator => at,
        Audience::Tenant { id: _ } => at,
    }
}

// Whether a call is a tick.
#[tactic(auto, unfolding(definitions::specs::Traces::is_tick))]
fn is_tick(call: Call) -> bool
    ensures { result ≡ is_tick (event_of call) }
{
    matches!(call, Call::Tick)
}

// What an audience is told of a tick that gave an answer and left a control; the caller, who is given the answer, would be told what the
// operator is. A tick leaves every client's type as it was, so the control after it tells a tenant the same as the one before, which
// nobody has to keep meanwhile.
fn note_for(audience: Audience, control: Control, answer: Answer, sum: u64) -> Note
    ensures { (t : Tables) → result ≡ note_for audience (core_of control t) answer sum }
{
    let reason = notes::reason(control, sum);
    if let Audience::Tenant { id } = audience {
        return notes::tenant(id, control, answer, reason);
    }
    notes::operator(answer, reason)
}

// Writes what a call shows that was carried out.
fn show(
    audience: Audience,
    out: &mut [u8],
    at: usize,
    control: Control,
    ticked: bool,
    answer: Answer,
    sum: u64,
) -> usize
    ensures { (t : Tables) → LineWritten (call_for audience ticked (core_of control t) answer sum)
        out.old at out.new result }
{
    if let Audience::Caller = audience {
        return printer::print(out, at, answer);
    }
    if !ticked {
        return at;
    }
    let note = note_for(audience, control, answer, sum);
    printer::print_note(out, at, note)
}

// One line, for which there is room: what it holds is carried out, or it is answered and skipped.
fn line(
    audience: Audience,
    text: &[u8],
    at: usize,
    out: &mut [u8],
    written: usize,
    control: Control,
    tables: &mut Tables,
) -> Progress
    requires { Valid control tables.old × (at < length text.now) × (written + line_room ≤ length out.old) }
    ensures { Walked audience text.now at control tables.old (take written out.old) out.new result tables.new × (at < result.next) }
{
    let span = reader::line_at(text, at);
    let end = span.end;
    let next = span.next;
    if end == text.len() {
        return Progress {
            control,
            next,
            written: print_unread(audience, out, written, Unread::NoForm),
        };
    }
    let call = match parser::parse(&text[at..end]) {
        Ok(call) => call,
        Err(unread) => {
            return Progress {
                control,
                next,
                written: print_unread(audience, out, written, unread),
            };
        }
    };
    let ticked = is_tick(call);
    let performed = perform_told(control, tables, call);
    let answered = performed.answered;
    let answer = answered.answer;
    let left = answered.control;
    let sample = performed.sample;
    Progress {
        control: left,
        next,
        written: show(audience, out, written, left, ticked, answer, sample.sum),
    }
}

// Whether a line stands at a place, and a line's room is left behind what was written.
fn goes_on(text: &[u8], at: usize, size: usize, written: usize) -> bool
    ensures { result ≡ (not (is_end text.now at) && leb (written + line_room) size) }
{
    if reader::ended(text, at) {
        return false;
    }
    printer::has_room(size, written)
}

// Before the first piece: an unopened core at the first byte, or behind a text that is too long, whose one line is written.
pub fn start(text: &[u8], out: &mut [u8]) -> Progress
    ensures { Start text.now out.new result }
{
    let control = opening::unopened();
    if text.len() > TEXT_LIMIT {
        let written = printer::print_refused(out, 0, TOO_LONG);
        return Progress {
            control,
            next: text.len(),
            written,
        };
    }
    Progress {
        control,
        next: 0,
        written: 0,
    }
}

// The lines from a place on, while a line's room is left, written from the start of the buffer.
pub fn piece(
    audience: Audience,
    text: &[u8],
    at: usize,
    out: &mut [u8],
    control: Control,
    tables: &mut Tables,
) -> Progress
    requires { Valid control tables.old }
    ensures { Piece audience text.now at control tables.old out.new result tables.new }
{
    let mut core = control;
    let mut place = at;
    let mut written: usize = 0;
    // where the next line begins is where this one ended: no index is counted
    while goes_on(text, place, out.len(), written) {
        let progress = line(audience, text, place, out, written, core, tables);
        core = progress.control;
        place = progress.next;
        written = progress.written;
    }
    Progress {
        control: core,
        next: place,
        written,
    }
}
