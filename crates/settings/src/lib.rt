// Join, change and leave. `empty` takes away what an id has to send, and `place_client` gives it the terms of a new client, a
// leave those of nobody: change and leave are the one and then the other. Only a change that keeps the kind keeps the client.
#![tactic(auto)]

ghost use Rattle.std.specs.Prelude.{◌≡◌, true, List, ℕ, ◌+◌, ◌-◌, ◌^◌, ◌≤◌, ◌<◌, Some, IfOk};
ghost use Rattle.definitions.specs.Event.{Join, Change, Leave};
ghost use Rattle.definitions.specs.Sizes.{ids, places, burst_limit};
ghost use Rattle.definitions.specs.Client.{is_active, same_kind};
ghost use Rattle.definitions.specs.ClientKinds.{type_of, kind_in};
ghost use Rattle.definitions.specs.Checks.{burst_fits, term_checks, join_checks, change_checks};
ghost use Rattle.definitions.specs.Refusals.{number_in};
ghost use Rattle.order.specs.Order.{Sound, Ordered};
ghost use Rattle.order.specs.Owner.{places_of};
ghost use Rattle.tables.specs.declared.Tables.{Tables};
ghost use Rattle.tables.specs.Tables.{tables, rate_at, count_at, ring};
ghost use Rattle.tables.specs.Controls.{with_rates};
ghost use Rattle.tables.specs.Meaning.{kind_at};
ghost use Rattle.tables.specs.Invariant.{Valid};
ghost use Rattle.tables.specs.Numbers.{first_failed, refusal};
ghost use Rattle.tables.specs.Places.{Promised};
ghost use Rattle.settings.specs.Writes.{Room, Ready, with_terms, retuned_level, rates_after, with_bare};
ghost use Rattle.settings.specs.Writes.{Remarked, Recast, Quiet, Withdrawn, Withdraws, Empties};

use counts::{COUNTS, Counted};
use definitions::{BURST_LIMIT, ClientKind, IDS, PLACES, Refusal, SHARES};
use order::LINKS;
use tables::{Answered, BURST, COUNT, Control, HEAD, LEVEL, POOL, RATE, STOCKS, STORE, TERMS};

// A word with the mark of an id set or taken.
fn set_mark(word: u64, id: u32, on: bool) -> u64
    requires { id < ids }
    ensures { Remarked word result id on }
{
    if on {
        marks::mark(word, id)
    } else {
        marks::unmark(word, id)
    }
}

// The control with the marks of an id's kind anew, if it has one.
fn recast(control: Control, id: u32, kind: Option<ClientKind>) -> Control
    requires { id < ids }
    ensures { Recast control result id (kind_in kind) }
{
    let mut after = control;
    after.indifferent = set_mark(
        control.indifferent,
        id,
        matches!(kind, Some(ClientKind::Indifferent)),
    );
    after.private = set_mark(
        control.private,
        id,
        matches!(kind, Some(ClientKind::Private)),
    );
    after
}

// The control with one rate in the place of another.
fn trade(control: Control, old: u32, rate: u32) -> Control
    requires { (old ≤ control.rates) × (control.rates + rate < 2 ^ 32) }
    ensures { result ≡ with_rates control (control.rates - old + rate) }
{
    let mut after = control;
    after.rates = control.rates - old + rate;
    after
}

// Writes an id's rate, burst and level.
fn set_terms(terms: &mut [u32; TERMS], id: u32, rate: u32, burst: u32, level: u32)
    requires { id < ids }
    ensures { terms.new ≡ with_terms terms.old id rate burst level }
{
    terms[(RATE + id) as usize] = rate;
    terms[(BURST + id) as usize] = burst;
    terms[(LEVEL + id) as usize] = level;
}

// Gives an id the terms of a new client, in the place of any that it had: the marks of the kind, and an empty bucket.
// Without a kind, and with rate and burst 0, it is nobody. What the id has to send is emptied before.
fn place_client(
    control: Control,
    terms: &mut [u32; TERMS],
    id: u32,
    kind: Option<ClientKind>,
    rate: u32,
    burst: u32,
) -> Control
    requires { Room control terms.old id rate }
    ensures recast { Recast (with_rates control (rates_after control terms.old id rate)) result id (kind_in kind) }
    ensures terms_after { terms.new ≡ with_terms terms.old id rate burst 0 }
{
    let old = terms[(RATE + id) as usize];
    set_terms(terms, id, rate, burst, 0);
    recast(trade(control, old, rate), id, kind)
}

// Gives a client of the same kind new terms: a level above the new burst comes down to it.
fn retune(control: Control, terms: &mut [u32; TERMS], id: u32, rate: u32, burst: u32) -> Control
    requires { Room control terms.old id rate × (burst ≤ burst_limit) }
    ensures value { result ≡ with_rates control (rates_after control terms.old id rate) }
    ensures terms_after { terms.new
        ≡ with_terms terms.old id rate burst (retuned_level terms.old id burst) }
{
    let old = terms[(RATE + id) as usize];
    let level = terms[(LEVEL + id) as usize].min(burst * SHARES);
    set_terms(terms, id, rate, burst, level);
    trade(control, old, rate)
}

// Takes the places of a queue out of the order, from the front on. No handle and no length is written.
fn unlink_ring(links: &mut [u32; LINKS], id: u32, head: u32, count: u32)
    requires { Sound links.old × (id < ids) × (head < places) × (count ≤ places) }
    ensures sound { Sound links.new }
    ensures by_index { (order : List ℕ) → Ordered links.old order → places_of id order ≡ ring id head count
        → Withdrawn links.new id order }
{
    for i in 0..count {
        order::unlink(links, id * PLACES + (head + i) % PLACES);
    }
}

// Takes what an id has waiting out of the order, where a private client has nothing.
fn withdraw(control: Control, stocks: &[u32; STOCKS], links: &mut [u32; LINKS], id: u32)
    requires { Ready stocks.now links.old id }
    ensures sound { Sound links.new }
    ensures withdraws { Withdraws control stocks.now links.old id links.new }
{
    if marks::has(control.indifferent, id) {
        unlink_ring(
            links,
            id,
            stocks[(HEAD + id) as usize],
            stocks[(COUNT + id) as usize],
        );
    }
}

// Makes an id's pool and queue empty, and takes its mark of waiting.
fn clear(control: Control, stocks: &mut [u32; STOCKS], id: u32) -> Control
    requires { id < ids }
    ensures quiet { Quiet control result id }
    ensures stocks_after { stocks.new ≡ with_bare stocks.old id }
{
    stocks[(POOL + id) as usize] = 0;
    stocks[(COUNT + id) as usize] = 0;
    let mut after = control;
    after.waiting = marks::unmark(control.waiting, id);
    after
}

// Takes away all that an id has to send, its places in the order too. No handle and no length is written.
fn empty(control: Control, stocks: &mut [u32; STOCKS], links: &mut [u32; LINKS], id: u32) -> Control
    requires { Ready stocks.old links.old id }
    ensures { Empties control stocks.old links.old id result stocks.new links.new }
{
    withdraw(control, stocks, links, id);
    clear(control, stocks, id)
}

fn burst_fits(kind: ClientKind, burst: u32) -> bool
    ensures { result ≡ burst_fits (type_of kind) burst }
{
    match kind {
        ClientKind::Indifferent => (1..=BURST_LIMIT).contains(&burst),
        ClientKind::Private => burst == 0,
    }
}

// The kind that terms name, or what they are refused for, where the others hold so much of the threshold: 7, 8, 9, 10.
fn check_terms(
    threshold: u32,
    others: u32,
    kind: u32,
    rate: u32,
    burst: u32,
) -> Result<ClientKind, Refusal>
    ensures number { number_in result ≡ first_failed (term_checks threshold others kind rate burst) }
    ensures named { IfOk result (λ k. kind ≡ type_of k) }
{
    let named = ClientKind::try_from(kind)?;
    if !(1..=SHARES).contains(&rate) {
        return Err(Refusal::Rate);
    }
    if !burst_fits(named, burst) {
        return Err(Refusal::Burst);
    }
    if tables::wide(threshold) < tables::wide(others) + tables::wide(rate) {
        return Err(Refusal::Rates);
    }
    Ok(named)
}

// The kind that a join names, or what it is refused for: 19, 4, 6, and by the terms.
fn check_join(
    control: Control,
    id: u32,
    kind: u32,
    rate: u32,
    burst: u32,
) -> Result<ClientKind, Refusal>
    ensures number { (t : Tables) → Valid control t
        → number_in result ≡ refusal control t (λ s. join_checks s id kind rate burst) }
    ensures named { IfOk result (λ k. kind ≡ type_of k) }
{
    if !control.opened {
        return Err(Refusal::Unopened);
    }
    if IDS <= id {
        return Err(Refusal::Id);
    }
    if tables::active(control, id) {
        return Err(Refusal::Active);
    }
    check_terms(control.threshold, control.rates, kind, rate, burst)
}

// The kind that a change names, or what it is refused for: 19, 4, 5, and by the terms, with the old rate taken off.
fn check_change(
    control: Control,
    terms: &[u32; TERMS],
    id: u32,
    kind: u32,
    rate: u32,
    burst: u32,
) -> Result<ClientKind, Refusal>
    requires { control.opened ≡ true → id < ids → rate_at terms.now id ≤ control.rates }
    ensures number { (stocks handles lengths links counts : List ℕ)
        → Valid control (tables terms.now stocks handles lengths links counts)
        → number_in result ≡ refusal control (tables terms.now stocks handles lengths links counts)
        (λ s. change_checks s id kind rate burst) }
    ensures named { IfOk result (λ k. kind ≡ type_of k) }
{
    tables::check_active(control, id)?;
    let others = control.rates - terms[(RATE + id) as usize];
    check_terms(control.threshold, others, kind, rate, burst)
}

// Whether an active client is of the kind already.
fn keeps_kind(control: Control, id: u32, kind: ClientKind) -> bool
    requires { is_active (kind_at control id) ≡ true }
    ensures { result ≡ same_kind (kind_at control id) (kind_in (Some kind)) }
{
    match kind {
        ClientKind::Indifferent => marks::has(control.indifferent, id),
        ClientKind::Private => !marks::has(control.indifferent, id),
    }
}

// How many packets of an id wait.
fn waiting_of(stocks: &[u32; STOCKS], id: u32) -> u64
    requires { id < ids }
    ensures { result ≡ count_at stocks.now id }
{
    tables::wide(stocks[(COUNT + id) as usize])
}

// Sets an inactive id up with a client, whose counts begin at zero (paper 01, "Join"). Refused: 19, 4, 6, 7, 8, 9, 10.
// The kind is a number: a call may name any, and `Promised (Join id kind ..)` answers 7 to one that is none.
// The tables come one by one, here and in change and leave: what a call does not write is lent by `&`.
pub fn join(
    control: Control,
    terms: &mut [u32; TERMS],
    stocks: &mut [u32; STOCKS],
    handles: &[u64; STORE],
    lengths: &[u16; STORE],
    links: &[u32; LINKS],
    counts: &mut [u64; COUNTS],
    id: u32,
    kind: u32,
    rate: u32,
    burst: u32,
) -> Answered
    requires { Valid control (tables terms.old stocks.old handles.now lengths.now links.now counts.old) }
    ensures { Promised (Join id kind rate burst) control
        (tables terms.old stocks.old handles.now lengths.now links.now
        counts.old) result
        (tables terms.new stocks.new handles.now lengths.now links.now
        counts.new) }
{
    let named = match check_join(control, id, kind, rate, burst) {
        Ok(named) => named,
        Err(refusal) => return tables::refused(control, refusal.number()),
    };
    let bare = clear(control, stocks, id);
    counts::clear(counts, id);
    tables::accepted(place_client(bare, terms, id, Some(named), rate, burst))
}

// Gives an active client new terms, and a new start where its kind differs (paper 01, "Change"). What that empties is counted.
// Refused: 19, 4, 5, 7, 8, 9, 10.
pub fn change(
    control: Control,
    terms: &mut [u32; TERMS],
    stocks: &mut [u32; STOCKS],
    handles: &[u64; STORE],
    lengths: &[u16; STORE],
    links: &mut [u32; LINKS],
    counts: &mut [u64; COUNTS],
    id: u32,
    kind: u32,
    rate: u32,
    burst: u32,
) -> Answered
    requires { Valid control (tables terms.old stocks.old handles.now lengths.now links.old counts.old) }
    ensures { Promised (Change id kind rate burst) control
        (tables terms.old stocks.old handles.now lengths.now links.old
        counts.old) result
        (tables terms.new stocks.new handles.now lengths.now links.new
        counts.new) }
{
    let named = match check_change(control, terms, id, kind, rate, burst) {
        Ok(named) => named,
        Err(refusal) => return tables::refused(control, refusal.number()),
    };
    if keeps_kind(control, id, named) {
        return tables::accepted(retune(control, terms, id, rate, burst));
    }
    counts::raise(counts, id, Counted::Emptied, waiting_of(stocks, id));
    let bare = empty(control, stocks, links, id);
    tables::accepted(place_client(bare, terms, id, Some(named), rate, burst))
}

// Takes an active client away, with all that it has, its counts too (paper 01, "Leave"). Refused: 19, 4, 5.
pub fn leave(
    control: Control,
    terms: &mut [u32; TERMS],
    stocks: &mut [u32; STOCKS],
    handles: &[u64; STORE],
    lengths: &[u16; STORE],
    links: &mut [u32; LINKS],
    counts: &mut [u64; COUNTS],
    id: u32,
) -> Answered
    requires { Valid control (tables terms.old stocks.old handles.now lengths.now links.old counts.old) }
    ensures { Promised (Leave id) control
        (tables terms.old stocks.old handles.now lengths.now links.old
        counts.old) result
        (tables terms.new stocks.new handles.now lengths.now links.new
        counts.new) }
{
    if let Err(refusal) = tables::check_active(control, id) {
        return tables::refused(control, refusal.number());
    }
    let bare = empty(control, stocks, links, id);
    counts::clear(counts, id);
    tables::accepted(place_client(bare, terms, id, None, 0, 0))
}
