// Fair rates when all want more (paper 02, S-8): max-min shares. Demands are cut to the largest level at which they fit the
// threshold, and what is left goes one share each, by rising id, to those above the level. The level is found by halving, so no
// cost grows with the threshold.
#![tactic(auto)]

ghost use Rattle.std.specs.Prelude.{◌≡◌, ◌≤◌, length};
ghost use Rattle.std.proofs.lemmas.List.Edits.{sets};
ghost use Rattle.definitions.specs.Sizes.{ids, shares};
ghost use Rattle.definitions.specs.Checks.{within};
ghost use Rattle.definitions.specs.FairRates.{cut_sum, fair_level, extra, rates_at, entry_fits, listed_from, acceptable};
ghost use Rattle.maxmin.specs.Shared.{Shared};

use definitions::{Answer, IDS, Refusal, SHARES};

#[tactic(auto, unfolding(definitions::specs::Checks::within, definitions::specs::Sizes::shares))]
fn is_share(n: u32) -> bool
    ensures { result ≡ within 1 shares n }
{
    (1..=SHARES).contains(&n)
}

// Whether a demand is in range, and its id rises and stays below the limit.
#[tactic(auto, unfolding(definitions::specs::FairRates::entry_fits, definitions::specs::Sizes::ids))]
fn is_entry(lowest: u32, id: u32, demand: u32) -> bool
    ensures { result ≡ entry_fits lowest id demand }
{
    is_share(demand) && lowest <= id && id < IDS
}

// Whether a list is in order, with one id to a demand.
fn is_listed(listed: &[u32], demands: &[u32]) -> bool
    ensures { result ≡ listed_from 0 listed.now demands.now }
{
    if listed.len() != demands.len() {
        return false;
    }
    let mut lowest = 0;
    for (&id, &demand) in listed.iter().zip(demands) {
        if !is_entry(lowest, id, demand) {
            return false;
        }
        lowest = id + 1;
    }
    true
}

#[tactic(auto, unfolding(definitions::specs::FairRates::acceptable, definitions::specs::Sizes::ids))]
fn is_acceptable(threshold: u32, listed: &[u32], demands: &[u32]) -> bool
    ensures { result ≡ acceptable threshold listed.now demands.now }
{
    is_share(threshold)
        && demands.len() <= IDS as usize
        && demands.len() <= threshold as usize
        && is_listed(listed, demands)
}

// The demands, cut to a level, added up.
fn cut_sum(demands: &[u32], level: u32) -> u32
    requires { (length demands.now ≤ ids) × (level ≤ shares) }
    ensures { result ≡ cut_sum level demands.now }
{
    let mut sum = 0;
    for &demand in demands {
        sum += level.min(demand);
    }
    sum
}

// The largest level at which the demands fit, by halving: they fit at `level`, and at no level from `above` on.
fn fair_level(threshold: u32, demands: &[u32]) -> u32
    requires { length demands.now ≤ ids }
    ensures { result ≡ fair_level threshold demands.now }
{
    let mut level = 0;
    let mut above = SHARES + 1;
    while above - level > 1 {
        let middle = level + (above - level) / 2;
        if cut_sum(demands, middle) <= threshold {
            level = middle;
        } else {
            above = middle;
        }
    }
    level
}

// The share that a demand above the level gets of what is left.
#[tactic(auto, unfolding(definitions::specs::FairRates::extra))]
fn extra(level: u32, left: u32, demand: u32) -> u32
    ensures { result ≡ extra level left demand }
{
    if demand <= level { 0 } else { left.min(1) }
}

fn put_rates(level: u32, left: u32, demands: &[u32], rates: &mut [u32])
    requires { (length demands.now ≤ length rates.old) × (level ≤ shares) }
    ensures { rates.new ≡ sets rates.old 0 (rates_at level left demands.now) }
{
    let mut rest = left;
    // By index into the room: over a `zip` with `iter_mut` an invariant has no name for what was written.
    for (i, &demand) in demands.iter().enumerate() {
        let more = extra(level, rest, demand);
        rates[i] = level.min(demand) + more;
        rest -= more;
    }
}

// Gives each demand its rate, in the order of the list, at the start of the caller's room. What no list of demands is, or has no
// room for its rates, is refused with the number of the one check, and the room stays as it was. Ids and demands are two lists, since
// `Shared` of specs/ speaks of two that may not be equally long.
pub fn rates(threshold: u32, listed: &[u32], demands: &[u32], rates: &mut [u32]) -> Answer
    ensures { Shared threshold listed.now demands.now rates.old result rates.new }
{
    if !is_acceptable(threshold, listed, demands) || rates.len() < demands.len() {
        return Answer::Refused {
            number: Refusal::Unfair.number(),
        };
    }
    let level = fair_level(threshold, demands);
    let left = threshold - cut_sum(demands, level);
    put_rates(level, left, demands, rates);
    Answer::Accepted
}
