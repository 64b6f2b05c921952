// Reads one line of the script: any bytes, any number of them. The grammar that it reads by is `parsed` of crate grammar. The two
// lines of a text of demands are read by the same rules.
// A form is the text that it begins with, a template for the rest, with gaps for numbers, and the call that the numbers make.
// One matcher walks the templates, and knows nothing of calls.
#![tactic(auto)]

ghost use Rattle.std.specs.Prelude.{◌≡◌, true, ◌<◌, ◌++◌};
ghost use Rattle.grammar.specs.Grammar.{open_forms, join_forms, change_forms, leave_forms, load_forms, arrive_forms, tick_forms};
ghost use Rattle.grammar.specs.Grammar.{parsed_by, parsed};
ghost use Rattle.grammar.specs.FairSheet.{threshold_form, demand_form};
ghost use Rattle.parser.specs.Numbers.{DigitSplit, Grows, Holds, Spells};
ghost use Rattle.parser.specs.Pairs.{pair_of};
ghost use Rattle.parser.specs.Readings.{gap_of, Room, Readable, Reads, TermsRead, TermsBehind};
ghost use Rattle.parser.specs.Texts.{plain};
ghost use Rattle.parser.specs.Words.{word_of};

use definitions::{HANDLE_LIMIT, INDIFFERENT, NUMBER_LIMIT, PRIVATE, Packet};
use grammar::{Call, Unread};

// A tenth of the largest number of 64 bits: what is less has room for any digit behind it.
const TENTH: u64 = u64::MAX / 10;

// How many numbers a line may have: no template takes more.
const NUMBERS: usize = 8;

// A number that a line begins with: its value, if it is within its limit, and what stands behind it.
#[derive(Clone, Copy)]
struct Numeral<'a> {
    value: Option<u64>,
    rest: &'a [u8],
}

// The numbers of a form that has one or two: 0 for a second that it does not have, as `pair_of` says of the threshold's form.
#[derive(Clone, Copy)]
pub struct Pair {
    pub first: u32,
    pub second: u32,
}

// What stands behind `(join ` and `(change `: the numbers of the call.
#[derive(Clone, Copy)]
struct Terms {
    id: u32,
    kind: u32,
    rate: u32,
    burst: u32,
}

// The digit that a line begins with, and what stands behind it.
fn split_digit(line: &[u8]) -> Option<(u64, &[u8])>
    ensures { DigitSplit line.now result }
{
    let (byte, rest) = line.split_first()?;
    if byte.is_ascii_digit() {
        Some((u64::from(*byte - b'0'), rest))
    } else {
        None
    }
}

// One digit more, unless that would pass 64 bits. Below a tenth of that one test is enough: it spares a third of what a digit
// costs.
fn more(amount: Option<u64>, digit: u64) -> Option<u64>
    ensures { Grows amount digit result }
{
    let value = amount?;
    if value < TENTH {
        return (value * 10).checked_add(digit);
    }
    value.checked_mul(10)?.checked_add(digit)
}

// A number, unless it is above a limit.
fn held(amount: Option<u64>, limit: u64) -> Option<u64>
    ensures { Holds amount limit result }
{
    match amount {
        Some(value) if value <= limit => Some(value),
        _ => None,
    }
}

// The number that a line begins with, however many digits it has. The first of several is not 0.
fn read_numeral(line: &[u8], limit: u64) -> Option<Numeral>
    ensures { Spells limit line.now result }
{
    let (first, behind) = split_digit(line)?;
    let mut amount = Some(first);
    let mut rest = behind;
    while let Some((digit, left)) = split_digit(rest) {
        amount = more(amount, digit);
        rest = left;
    }
    if first == 0 && rest.len() < behind.len() {
        return None;
    }
    Some(Numeral {
        value: held(amount, limit),
        rest,
    })
}

// The number that a word is, where it is one and nothing else.
pub fn number(word: &[u8]) -> Option<u32>
    ensures { result ≡ word_of word.now }
{
    let numeral = read_numeral(word, NUMBER_LIMIT)?;
    if !numeral.rest.is_empty() {
        return None;
    }
    let value = numeral.value?;
    Some(value as u32)
}

// Which bytes of a template are gaps, for a number of a call and for a handle, and the largest number that may stand in each.
fn gap_of(byte: u8) -> Option<u64>
    ensures { result ≡ gap_of byte }
{
    match byte {
        b'#' => Some(NUMBER_LIMIT),
        b'@' => Some(HANDLE_LIMIT),
        _ => None,
    }
}

// What a template finds in a line: one walk over both. The numbers are put one after the other into what is lent, which has to
// have room for as many as the template takes.
fn read_as(line: &[u8], template: &[u8], numbers: &mut [u64; NUMBERS]) -> Result<(), Unread>
    requires { Room template.now numbers.old }
    ensures { Reads template.now line.now result numbers.new }
{
    let mut large = false;
    let mut count = 0;
    let mut rest = line;
    for byte in template {
        if let Some(limit) = gap_of(*byte) {
            let Some(numeral) = read_numeral(rest, limit) else {
                return Err(Unread::NoForm);
            };
            match numeral.value {
                Some(value) => numbers[count] = value,
                None => large = true,
            }
            count += 1;
            rest = numeral.rest;
        } else {
            match rest.split_first() {
                Some((first, behind)) if *first == *byte => rest = behind,
                _ => return Err(Unread::NoForm),
            }
        }
    }
    if !rest.is_empty() {
        return Err(Unread::NoForm);
    }
    if large {
        return Err(Unread::TooLarge);
    }
    Ok(())
}

// What the template of a form finds in a line: a text, and the rest of the template.
fn read_form(
    line: &[u8],
    text: &[u8],
    rest: &[u8],
    numbers: &mut [u64; NUMBERS],
) -> Result<(), Unread>
    requires { Readable text.now rest.now numbers.old }
    ensures { Reads (text.now ++ rest.now) line.now result numbers.new }
{
    let Some(behind) = line.strip_prefix(text) else {
        return Err(Unread::NoForm);
    };
    read_as(behind, rest, numbers)
}

// The forms of each call: a group of `rules`. One function for each, since its contract names its group; what they share is `read_form`.
fn parse_open(line: &[u8]) -> Result<Call, Unread>
    ensures { result ≡ parsed_by open_forms line.now }
{
    let mut numbers = [0; NUMBERS];
    read_form(line, b"(open ", b"# # #)", &mut numbers)?;
    Ok(Call::Open {
        threshold: numbers[0] as u32,
        discipline: numbers[1] as u32,
        seed: numbers[2] as u32,
    })
}

// What stands behind the text of a join and of a change.
fn read_terms(line: &[u8]) -> Result<Terms, Unread>
    ensures { TermsRead line.now result }
{
    let mut numbers = [0; NUMBERS];
    match read_as(line, b"# (private #))", &mut numbers) {
        Ok(()) => {
            return Ok(Terms {
                id: numbers[0] as u32,
                kind: PRIVATE,
                rate: numbers[1] as u32,
                burst: 0,
            });
        }
        Err(Unread::TooLarge) => return Err(Unread::TooLarge),
        Err(Unread::NoForm) => {}
    }
    read_as(line, b"# (indifferent # #))", &mut numbers)?;
    Ok(Terms {
        id: numbers[0] as u32,
        kind: INDIFFERENT,
        rate: numbers[1] as u32,
        burst: numbers[2] as u32,
    })
}

// The terms of a call whose line begins with a text.
fn terms_behind(line: &[u8], text: &[u8]) -> Result<Terms, Unread>
    requires { plain text.now ≡ true }
    ensures { TermsBehind text.now line.now result }
{
    let Some(behind) = line.strip_prefix(text) else {
        return Err(Unread::NoForm);
    };
    read_terms(behind)
}

// The terms of a join and of a change are read by one function; what is left of the two is their text and their call.
fn parse_join(line: &[u8]) -> Result<Call, Unread>
    ensures { result ≡ parsed_by join_forms line.now }
{
    let terms = terms_behind(line, b"(join ")?;
    Ok(Call::Join {
        id: terms.id,
        kind: terms.kind,
        rate: terms.rate,
        burst: terms.burst,
    })
}

fn parse_change(line: &[u8]) -> Result<Call, Unread>
    ensures { result ≡ parsed_by change_forms line.now }
{
    let terms = terms_behind(line, b"(change ")?;
    Ok(Call::Change {
        id: terms.id,
        kind: terms.kind,
        rate: terms.rate,
        burst: terms.burst,
    })
}

fn parse_leave(line: &[u8]) -> Result<Call, Unread>
    ensures { result ≡ parsed_by leave_forms line.now }
{
    let mut numbers = [0; NUMBERS];
    read_form(line, b"(leave ", b"#)", &mut numbers)?;
    Ok(Call::Leave {
        id: numbers[0] as u32,
    })
}

fn parse_load(line: &[u8]) -> Result<Call, Unread>
    ensures { result ≡ parsed_by load_forms line.now }
{
    let mut numbers = [0; NUMBERS];
    read_form(line, b"(load ", b"# #)", &mut numbers)?;
    Ok(Call::Load {
        id: numbers[0] as u32,
        dummies: numbers[1] as u32,
    })
}

fn parse_leave_or_load(line: &[u8]) -> Result<Call, Unread>
    ensures { result ≡ parsed_by (leave_forms ++ load_forms) line.now }
{
    if line.starts_with(b"(le") {
        return parse_leave(line);
    }
    parse_load(line)
}

fn parse_arrive(line: &[u8]) -> Result<Call, Unread>
    ensures { result ≡ parsed_by arrive_forms line.now }
{
    let mut numbers = [0; NUMBERS];
    read_form(line, b"(arrive ", b"# (packet @ #))", &mut numbers)?;
    let packet = Packet {
        handle: numbers[1],
        length: numbers[2] as u32,
    };
    Ok(Call::Arrive {
        id: numbers[0] as u32,
        packet,
    })
}

fn parse_tick(line: &[u8]) -> Result<Call, Unread>
    ensures { result ≡ parsed_by tick_forms line.now }
{
    let Some(rest) = line.strip_prefix(b"(tick)") else {
        return Err(Unread::NoForm);
    };
    if rest.len() > 0 {
        return Err(Unread::NoForm);
    }
    Ok(Call::Tick)
}

// What a line holds: shape is judged before size (paper 01, "Script and printout"). The second byte spares a walk for each form
// that the line cannot be.
pub fn parse(line: &[u8]) -> Result<Call, Unread>
    ensures { result ≡ parsed line.now }
{
    let Some(second) = line.get(1) else {
        return Err(Unread::NoForm);
    };
    match *second {
        b'o' => parse_open(line),
        b'j' => parse_join(line),
        b'c' => parse_change(line),
        b'l' => parse_leave_or_load(line),
        b'a' => parse_arrive(line),
        b't' => parse_tick(line),
        _ => Err(Unread::NoForm),
    }
}

// The first line of a text of demands, with the line feed that closes it (paper 02, S-8). It and `demand` each name a form of their own in their
// contracts; what they share is `read_form`.
pub fn threshold(line: &[u8]) -> Result<Pair, Unread>
    ensures { result ≡ pair_of threshold_form line.now }
{
    let mut numbers = [0; NUMBERS];
    read_form(line, b"(threshold ", b"#)\n", &mut numbers)?;
    Ok(Pair {
        first: numbers[0] as u32,
        second: 0,
    })
}

// A demand: its id and its shares, likewise.
pub fn demand(line: &[u8]) -> Result<Pair, Unread>
    ensures { result ≡ pair_of demand_form line.now }
{
    let mut numbers = [0; NUMBERS];
    read_form(line, b"(demand ", b"# #)\n", &mut numbers)?;
    let (id, shares) = (numbers[0], numbers[1]);
    Ok(Pair {
        first: id as u32,
        second: shares as u32,
    })
}
