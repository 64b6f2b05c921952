// Prints answers (paper 01, "Script and printout"), the sentences of a sheet, the figure of a forecast, fair rates and counts: each as a
// line of text, into bytes that are lent, from a place on. The project lends fixed memory, so a place stands beside the bytes, and no String grows.
#![tactic(auto)]

ghost use Rattle.std.specs.Prelude.{◌+◌, ◌/◌, ◌%◌, ◌≤◌, ◌<◌, ◌≡◌, ◌&&◌, [], ◌∷◌, ◌++◌, leb, ltb, length};
ghost use Rattle.grammar.specs.Numerals.{decimal};
ghost use Rattle.grammar.specs.Templates.{is_gap, filled};
ghost use Rattle.grammar.specs.Printout.{printed};
ghost use Rattle.grammar.specs.Sentences.{outcome_text, drawn_text, reason_text, sentence};
ghost use Rattle.grammar.specs.Forecast.{sure_line};
ghost use Rattle.grammar.specs.FairSheet.{rate_line};
ghost use Rattle.grammar.specs.CountLines.{count_line};
ghost use Rattle.printer.specs.Appended.{Appended};
ghost use Rattle.printer.specs.Printed.{outcome_room, reason_room, line_room, LineWritten, Printed, word_room, pair_line};

use definitions::{Answer, CountSheet, Drawing, Note, Outcome, Packet};

// The room that a line is given. No line is longer, whatever its numbers.
pub const LINE_ROOM: usize = 192;

const ZERO: u64 = 48;

// The gaps of a template: for a number of a call, and for a handle.
const NUMBER: u8 = b'#';

const HANDLE: u8 = b'@';

// Whether a line's room is left behind a place, with no sum that could wrap.
pub fn has_room(size: usize, at: usize) -> bool
    ensures { result ≡ leb (at + line_room) size }
{
    size >= LINE_ROOM && at <= size - LINE_ROOM
}

// Writes a text. One that is fixed where it is called is copied by words, since the compiler knows its length; by `copy_from_slice` a script of
// line feeds takes 1.19 of the instructions.
fn put(out: &mut [u8], at: usize, text: &[u8]) -> usize
    requires { at + length text.now ≤ length out.old }
    ensures { Appended text.now out.old at out.new result }
{
    for i in 0..text.len() {
        out[at + i] = text[i];
    }
    at + text.len()
}

// Writes the last two digits of a number. A number's digits are written here, since of bytes that std's `write!` fills it promises how many are
// left, and not which are written: no line's contract follows.
fn put_two(out: &mut [u8], at: usize, n: u64) -> usize
    requires { at + 2 ≤ length out.old }
    ensures { Appended ((48 + n / 10 % 10) ∷ (48 + n % 10) ∷ []) out.old at out.new result }
{
    out[at] = (ZERO + n / 10 % 10) as u8;
    out[at + 1] = (ZERO + n % 10) as u8;
    at + 2
}

// Writes a number of one digit or two.
fn put_small(out: &mut [u8], at: usize, n: u64) -> usize
    requires { (n < 100) × (at + length (decimal n) ≤ length out.old) }
    ensures { Appended (decimal n) out.old at out.new result }
{
    if n < 10 {
        out[at] = (ZERO + n) as u8;
        return at + 1;
    }
    put_two(out, at, n)
}

// Writes a number, its last two digits behind those of n / 100.
fn put_large(out: &mut [u8], at: usize, n: u64) -> usize
    requires { at + length (decimal n) ≤ length out.old }
    ensures { Appended (decimal n) out.old at out.new result }
{
    if n < 100 {
        return put_small(out, at, n);
    }
    let end = put_large(out, at, n / 100);
    put_two(out, end, n)
}

// Writes a text and a number behind it. Most numbers are small, and are written without a call.
fn put_number(out: &mut [u8], at: usize, text: &[u8], n: u64) -> usize
    requires { at + length (text.now ++ decimal n) ≤ length out.old }
    ensures { Appended (text.now ++ decimal n) out.old at out.new result }
{
    let end = put(out, at, text);
    if n < 100 {
        put_small(out, end, n)
    } else {
        put_large(out, end, n)
    }
}

// Writes a number between two texts.
fn put_between(out: &mut [u8], at: usize, before: &[u8], n: u32, behind: &[u8]) -> usize
    requires { at + length ((before.now ++ decimal n) ++ behind.now) ≤ length out.old }
    ensures { Appended ((before.now ++ decimal n) ++ behind.now)
        out.old at out.new result }
{
    let end = put_number(out, at, before, u64::from(n));
    put(out, end, behind)
}

// Writes the line of a slot with a packet.
fn put_real(out: &mut [u8], at: usize, id: u32, packet: Packet, padding: u32) -> usize
    requires { at + length (printed (Answer.Slot (Outcome.Real id packet padding))) ≤ length out.old }
    ensures { Appended (printed (Answer.Slot (Outcome.Real id packet padding)))
        out.old at out.new result }
{
    let id_end = put_number(out, at, b"(slot (real ", u64::from(id));
    let handle_end = put_number(out, id_end, b" ", packet.handle);
    let length_end = put_number(out, handle_end, b" ", u64::from(packet.length));
    put_between(out, length_end, b" ", padding, b"))\n")
}

// Writes the line of a slot.
fn put_slot(out: &mut [u8], at: usize, outcome: Outcome) -> usize
    requires { at + line_room ≤ length out.old }
    ensures { Appended (printed (Answer.Slot outcome)) out.old at out.new result }
{
    match outcome {
        Outcome::Real {
            id,
            packet,
            padding,
        } => put_real(out, at, id, packet, padding),
        Outcome::Dummy { id } => put_between(out, at, b"(slot (dummy ", id, b"))\n"),
        Outcome::Idle { id } => put_between(out, at, b"(slot (idle ", id, b"))\n"),
        Outcome::None => put(out, at, b"(slot (none))\n"),
    }
}

// Writes the line of a refusal from a place on and gives the place behind it, or the same place where there is no room.
pub fn print_refused(out: &mut [u8], at: usize, number: u32) -> usize
    ensures { Printed (Answer.Refused number) out.old at out.new result }
{
    if !has_room(out.len(), at) {
        return at;
    }
    put_between(out, at, b"(refused ", number, b")\n")
}

// Writes the line of an answer from a place on; places and room are those of `print_refused`.
pub fn print(out: &mut [u8], at: usize, answer: Answer) -> usize
    ensures { Printed answer out.old at out.new result }
{
    if !has_room(out.len(), at) {
        return at;
    }
    match answer {
        Answer::Accepted => put(out, at, b"(ok)\n"),
        Answer::Refused { number } => print_refused(out, at, number),
        Answer::Slot { outcome } => put_slot(out, at, outcome),
    }
}

// Writes a line of a text and two numbers from a place on; places and room are those of `print_refused`.
fn print_pair(out: &mut [u8], at: usize, text: &[u8], first: u32, second: u32) -> usize
    requires { length text.now ≤ word_room }
    ensures { LineWritten (pair_line text.now first second) out.old at out.new result }
{
    if !has_room(out.len(), at) {
        return at;
    }
    let end = put_number(out, at, text, u64::from(first));
    put_between(out, end, b" ", second, b")\n")
}

// Writes the line of a number of ticks and a number of picks.
pub fn print_sure(out: &mut [u8], at: usize, ticks: u32, picks: u32) -> usize
    ensures { LineWritten (sure_line ticks picks) out.old at out.new result }
{
    print_pair(out, at, b"(sure ", ticks, picks)
}

// Writes the line of a demand's id and the rate that it gets.
pub fn print_rate(out: &mut [u8], at: usize, id: u32, rate: u32) -> usize
    ensures { LineWritten (rate_line id rate) out.old at out.new result }
{
    print_pair(out, at, b"(rate ", id, rate)
}

// Whether a byte of a template is a gap.
fn is_gap(byte: u8) -> bool
    ensures { result ≡ is_gap byte }
{
    byte == NUMBER || byte == HANDLE
}

// Whether a number is to stand for a byte of a template: it is a gap, and of so many numbers not all are used.
fn takes_number(byte: u8, used: usize, count: usize) -> bool
    ensures { result ≡ (is_gap byte && ltb used count) }
{
    is_gap(byte) && used < count
}

// Writes a template with numbers in its gaps, one after the other. The lines of answers, of which there are many, are written text by
// text instead, which is quicker.
fn put_filled(out: &mut [u8], at: usize, template: &[u8], numbers: &[u64]) -> usize
    requires { at + length (filled template.now numbers.now) ≤ length out.old }
    ensures { Appended (filled template.now numbers.now) out.old at out.new result }
{
    let mut end = at;
    let mut used = 0;
    for &byte in template {
        if takes_number(byte, used, numbers.len()) {
            end = put_large(out, end, numbers[used]);
            used += 1;
        } else {
            out[end] = byte;
            end += 1;
        }
    }
    end
}

// Writes the words of an outcome.
fn put_outcome(out: &mut [u8], at: usize, outcome: Outcome) -> usize
    requires { at + outcome_room ≤ length out.old }
    ensures { Appended (outcome_text outcome) out.old at out.new result × (result ≤ at + outcome_room) }
{
    match outcome {
        Outcome::Real {
            id,
            packet,
            padding,
        } => {
            let fields = [
                u64::from(id),
                packet.handle,
                u64::from(packet.length),
                u64::from(padding),
            ];
            put_filled(
                out,
                at,
                b"Client # sent packet @ of # bytes with # bytes of padding",
                &fields,
            )
        }
        Outcome::Dummy { id } => put_between(out, at, b"Client ", id, b" sent a dummy packet"),
        Outcome::Idle { id } => put_between(out, at, b"Client ", id, b" had nothing to send"),
        Outcome::None => put(out, at, b"Nobody had the slot"),
    }
}

// Writes the words of a slot that was not drawn.
fn put_undrawn(out: &mut [u8], at: usize, outcome: Outcome) -> usize
    requires { at + reason_room ≤ length out.old }
    ensures { Appended (reason_text outcome None) out.old at out.new result }
{
    match outcome {
        Outcome::None => put(out, at, b".\n"),
        _ => put(out, at, b", first come first served.\n"),
    }
}

// Writes the words of a draw.
fn put_drawn(out: &mut [u8], at: usize, target: u32, sum: u64) -> usize
    requires { at + reason_room ≤ length out.old }
    ensures { Appended (drawn_text target sum) out.old at out.new result }
{
    let fields = [u64::from(target), sum];
    put_filled(
        out,
        at,
        b", drawn at target # of a rate sum of #.\n",
        &fields,
    )
}

// Writes the words of a reason.
fn put_reason(out: &mut [u8], at: usize, outcome: Outcome, reason: Option<Drawing>) -> usize
    requires { at + reason_room ≤ length out.old }
    ensures { Appended (reason_text outcome reason) out.old at out.new result }
{
    match reason {
        None => put_undrawn(out, at, outcome),
        Some(draw) => put_drawn(out, at, draw.target, draw.sum),
    }
}

// Writes the sentence of a slot.
fn put_told(out: &mut [u8], at: usize, outcome: Outcome, reason: Option<Drawing>) -> usize
    requires { at + line_room ≤ length out.old }
    ensures { Appended (sentence (Note.Told outcome reason)) out.old at out.new result }
{
    let end = put_outcome(out, at, outcome);
    put_reason(out, end, outcome, reason)
}

// Writes the sentence of a note from a place on; places and room are those of `print_refused`.
pub fn print_note(out: &mut [u8], at: usize, note: Note) -> usize
    ensures { LineWritten (sentence note) out.old at out.new result }
{
    if !has_room(out.len(), at) {
        return at;
    }
    match note {
        Note::Refusal { number } => print_refused(out, at, number),
        Note::Told { outcome, reason } => put_told(out, at, outcome, reason),
        Note::ToIndifferent => put(out, at, b"The slot went to an indifferent client.\n"),
        Note::ToAnother => put(out, at, b"The slot went to another private client.\n"),
    }
}

// Writes the line of an id and its counts, in the order in which billing names them; places and room are those of `print_refused`.
pub fn print_counts(out: &mut [u8], at: usize, id: u32, counts: CountSheet) -> usize
    ensures { LineWritten (count_line id counts) out.old at out.new result × (result ≤ at + line_room) }
{
    if !has_room(out.len(), at) {
        return at;
    }
    let fields = [
        u64::from(id),
        counts.accepted,
        counts.sent,
        counts.full,
        counts.drained,
        counts.emptied,
        counts.dummies,
    ];
    put_filled(out, at, b"(counts # # # # # # #)\n", &fields)
}
