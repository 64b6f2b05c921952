// A word of 64 marks, one bit for each id: which ids have something. The marks say at once whether
// there is any, and are gone through by rising id: `for id in marks::ids(word)`.
// A shift by as many bits as there are ids, or more, is refused, so each shift is under a test.
#![tactic(auto)]

ghost use Rattle.std.specs.Prelude.{◌≡◌, not, ◌&&◌, ◌||◌, ℕ, ◌<◌, eqb, ltb};
ghost use Rattle.definitions.specs.Sizes.{ids};
ghost use Rattle.definitions.specs.Draw.{first_from};
ghost use Rattle.definitions.specs.Tick.{any_below};
ghost use Rattle.std.specs.Iterator.{YieldsFirst, item_count};
ghost use Rattle.marks.specs.Marks.{marked, marked_ids};

use definitions::IDS;
use std::marker::Model;

// Whether an id has a mark. No id from 64 on has one.
// An `else` and no `&&`, so that a wrong answer past the ids is refused at a fact of its own.
pub fn has(word: u64, id: u32) -> bool
    ensures { result ≡ marked word id }
{
    if id < IDS {
        (word >> id) & 1 == 1
    } else {
        false
    }
}

// The word with a mark at an id, and the word as it is where there is no such id.
pub fn mark(word: u64, id: u32) -> u64
    ensures { (j : ℕ) → marked result j ≡ marked word j || (eqb j id && ltb id ids) }
{
    if id < IDS { word | (1u64 << id) } else { word }
}

// The word without a mark at an id.
pub fn unmark(word: u64, id: u32) -> u64
    ensures { (j : ℕ) → marked result j ≡ marked word j && not (eqb j id) }
{
    if id < IDS { word & !(1u64 << id) } else { word }
}

// The ids that have a mark in both words.
pub fn both(a: u64, b: u64) -> u64
    ensures { (j : ℕ) → marked result j ≡ marked a j && marked b j }
{
    a & b
}

// Whether any id has a mark.
pub fn any(word: u64) -> bool
    ensures { result ≡ any_below ids (marked word) }
{
    0 < word.count_ones()
}

// The lowest id that has a mark; 64 if none has.
// A number and no None, as `first_from` of the definitions is.
pub fn first(word: u64) -> u32
    ensures { result ≡ first_from 0 ids (marked word) }
{
    word.trailing_zeros()
}

// The word without its lowest mark: one less than the word lacks that mark, and has the same marks
// above it. The word falls.
pub fn rest(word: u64) -> u64
    ensures marks { (j : ℕ) → marked result j ≡ marked word j && not (eqb j (first_from 0 ids (marked word))) }
    ensures falls { 0 < word → result < word }
{
    if word == 0 { 0 } else { word & (word - 1) }
}

// The ids that have a mark, by rising id.
pub fn ids(word: u64) -> Marks
    ensures { result ≡ marked_ids word }
{
    Marks { left: word }
}

// A walk over the marks of a word, seen as the list of the ids that are left.
#[derive(Drop)]
pub struct Marks {
    left: u64,
}

impl Model for Marks {
    ghost use Rattle.std.specs.Prelude.{List, ℕ};
    ghost use Rattle.marks.specs.Marks.{marked_ids};

    ghost Value = { List ℕ };

    ghost view = { λ m. marked_ids m.left };
}

impl Iterator for Marks {
    type Item = u32;

    ghost next_gives = { YieldsFirst (λ left. left) };

    ghost remaining = { item_count (λ left. left) };

    fn next(&mut self) -> Option<u32> {
        if self.left == 0 {
            return None;
        }
        let id = first(self.left);
        self.left = rest(self.left);
        Some(id)
    }
}
