// What the private side is sure of (paper 02, S-14): of how many picks in the next ticks, whatever the indifferent clients offer.
// They may take a slot for each packet that waits and for each that they buy meanwhile, and the rest is left to the private side.
#![tactic(auto)]

ghost use Rattle.std.specs.Prelude.{◌≡◌, List, ℕ, ◌^◌, ◌<◌};
ghost use Rattle.definitions.specs.Sizes.{ids};
ghost use Rattle.definitions.specs.Draw.{sum_below};
ghost use Rattle.definitions.specs.Guarantee.{sure};
ghost use Rattle.marks.specs.Marks.{marked_number};
ghost use Rattle.tables.specs.Tables.{tables};
ghost use Rattle.tables.specs.Meaning.{core_of};
ghost use Rattle.tables.specs.Invariant.{Valid};
ghost use Rattle.guarantee.specs.Demands.{demand_at};

use tables::{COUNT, Control, LEVEL, RATE, STOCKS, TERMS};

// What one client may take of the next slots.
#[tactic(auto, unfolding(definitions::specs::Sizes::ids, tables::specs::Tables::field, crate::specs::Demands::demand_at))]
fn demand_at(terms: &[u32; TERMS], stocks: &[u32; STOCKS], id: u32, ticks: u32) -> u64
    requires { id < ids }
    ensures { (result ≡ demand_at terms.now stocks.now ticks id) × (result < 2 ^ 55) }
{
    let rate = terms[(RATE + id) as usize];
    let level = terms[(LEVEL + id) as usize];
    let waiting = stocks[(COUNT + id) as usize];
    u64::from(waiting) + bucket::tokens(level, rate, ticks)
}

// What all marked clients may take. The sum of 64 demands fits a u64.
// By a `for`, as `draw::total` is.
fn demand(word: u64, terms: &[u32; TERMS], stocks: &[u32; STOCKS], ticks: u32) -> u64
    ensures { result ≡ sum_below ids (marked_number word (demand_at terms.now stocks.now ticks)) }
{
    let mut sum: u64 = 0;
    for id in marks::ids(word) {
        sum += demand_at(terms, stocks, id, ticks);
    }
    sum
}

// Of how many picks the private side is sure in the next ticks: 0 where the demand passes them, where no private client is
// active, and of an unopened core.
// Two tables and no &Tables: the contract says the figure of control, terms and stocks alone.
pub fn sure(control: Control, terms: &[u32; TERMS], stocks: &[u32; STOCKS], ticks: u32) -> u32
    ensures { (handles lengths links counts : List ℕ)
        → Valid control (tables terms.now stocks.now handles lengths links counts)
        → result ≡ sure (core_of control (tables terms.now stocks.now handles lengths links counts)) ticks }
{
    if !control.opened || !marks::any(control.private) {
        return 0;
    }
    let taken = demand(control.indifferent, terms, stocks, ticks);
    let slots = u64::from(ticks);
    slots.saturating_sub(taken) as u32
}
