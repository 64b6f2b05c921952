// The order in which the waiting packets of indifferent clients were accepted: a circular doubly linked list over all places
// with one sentinel, in one table that is lent. Every operation costs the same however many packets wait, and writes no packet.
// The links are numbers of places and no boxes: there is no heap, and a packet in the middle goes out at once.
#![tactic(auto)]

ghost use Rattle.std.specs.Prelude.{◌≡◌, List, [], ◌∷◌, ◌++◌, ℕ, ◌≤◌, ◌<◌};
ghost use Rattle.order.specs.Order.{sentinel, Sound, Absent, Ordered, front_of, joined};

use definitions::{IDS, PLACES};

// The sentinel, which follows the last place and stands before the first.
pub const END: u32 = IDS * PLACES;
// The next node of a is at a, and the previous one at NODES + a.
const NODES: usize = END as usize + 1;

// The entries of the table: two for each node.
pub const LINKS: usize = 2 * NODES;
// The sentinel's entries: its next node is the first place, its previous one the last.
const FIRST: usize = END as usize;

const LAST: usize = NODES + FIRST;

// Makes b follow a.
fn join(links: &mut [u32; LINKS], a: u32, b: u32)
    requires { (a ≤ sentinel) × (b ≤ sentinel) }
    ensures { links.new ≡ joined links.old a b }
{
    links[a as usize] = b;
    links[NODES + b as usize] = a;
}

// A new place is the last one. A number past the last place is taken modulo END.
pub fn push(links: &mut [u32; LINKS], place: u32)
    requires { Sound links.old }
    ensures sound { Sound links.new }
    ensures by_index { (order : List ℕ) → Ordered links.old order → Absent place order → place < sentinel
        → Ordered links.new (order ++ (place ∷ [])) }
{
    let new = place % END;
    let last = links[LAST];
    join(links, last, new);
    join(links, new, END);
}

// Takes a place out, wherever it stands.
pub fn unlink(links: &mut [u32; LINKS], place: u32)
    requires { Sound links.old }
    ensures sound { Sound links.new }
    ensures by_index { (before behind : List ℕ) → Ordered links.old (before ++ place ∷ behind)
        → Ordered links.new (before ++ behind) }
{
    let at = (place % END) as usize;
    let prev = links[NODES + at];
    let next = links[at];
    join(links, prev, next);
}

// The place that was accepted earliest, and END where none waits.
// A number and no None: the clause `upper_bound` holds of it.
pub fn front(links: &[u32; LINKS]) -> u32
    requires { Sound links.now }
    ensures upper_bound { result ≤ sentinel }
    ensures by_index { (order : List ℕ) → Ordered links.now order → result ≡ front_of order }
{
    links[FIRST]
}
