// A reader: it walks a lent text line by line and remembers its place. The work is done by functions on a slice and a number;
// those over the struct are thin, and public since the paper names this form. `line_at` and `ended` have plain parameters:
// whoever calls them needs no struct that holds a reference.
#![tactic(auto)]

ghost use Rattle.std.specs.Prelude.{◌≡◌};
ghost use Rattle.reader.specs.LineSpans.{line_end, after_line, is_end, span_at};
ghost use Rattle.reader.specs.ReaderMoved.{moved};

#[derive(Clone, Copy)]
pub struct Reader<'a> {
    pub text: &'a [u8],
    pub at: usize,
}

// A line that was read: where it ends, and the place behind it.
#[derive(Clone, Copy)]
pub struct Span {
    pub end: usize,
    pub next: usize,
}

const LINE_FEED: u8 = 10;

// Where the line that begins at `at` ends: at its line feed, or at the end of the text.
// By index: `at` may lie behind the text, and the contract wants it back then.
fn line_end(text: &[u8], at: usize) -> usize
    ensures { result ≡ line_end text.now at }
{
    for end in at..text.len() {
        if text[end] == LINE_FEED {
            return end;
        }
    }
    at.max(text.len())
}

// The place behind a line that ends at `end`: its line feed is passed, if it has one.
fn after_line(text: &[u8], end: usize) -> usize
    ensures { result ≡ after_line text.now end }
{
    if end < text.len() { end + 1 } else { end }
}

// Whether no byte stands at a place.
fn is_end(text: &[u8], at: usize) -> bool
    ensures { result ≡ is_end text.now at }
{
    at >= text.len()
}

// A reader at the first byte of a text.
pub fn new<'a>(text: &'a [u8]) -> Reader<'a>
    ensures { (result.text ≡ text.entry) × (result.at ≡ 0) }
{
    Reader { text, at: 0 }
}

// The place at which a reader stands.
pub fn place<'a>(reader: Reader<'a>) -> usize
    ensures { result ≡ reader.entry.at }
{
    reader.at
}

// Whether a reader has come to the end of its text.
pub fn at_end<'a>(reader: Reader<'a>) -> bool
    ensures { result ≡ is_end reader.entry.text.now reader.entry.at }
{
    is_end(reader.text, reader.at)
}

// Reads a line: gives where it ends, and leaves the reader behind it.
pub fn next<'s, 'a>(reader: &'s mut Reader<'a>) -> usize
    ensures { (result ≡ line_end reader.old.text.now reader.old.at)
        × (reader.new ≡ moved reader.old) }
{
    let end = line_end(reader.text, reader.at);
    reader.at = after_line(reader.text, end);
    end
}

// The line that begins at a place, read by a reader that is set there.
pub fn line_at(text: &[u8], at: usize) -> Span
    ensures { result ≡ span_at text.now at }
{
    let mut reader = new(text);
    reader.at = at;
    let end = next(&mut reader);
    Span {
        end,
        next: place(reader),
    }
}

// Whether a reader that is set at a place has come to the end.
pub fn ended(text: &[u8], at: usize) -> bool
    ensures { result ≡ is_end text.now at }
{
    let mut reader = new(text);
    reader.at = at;
    at_end(reader)
}
