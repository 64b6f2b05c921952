// The weighted draw over a word of marks and the table of terms, whose rates stand first: a target below the sum of the rates,
// and the first id, by rising id, at which the running sum exceeds it. Ids without a mark weigh nothing, and are not visited.
#![tactic(auto)]

ghost use Rattle.std.specs.Prelude.{◌≡◌, not, ◌&&◌, leb, ltb, ◌%◌};
ghost use Rattle.definitions.specs.Sizes.{ids, throws};
ghost use Rattle.definitions.specs.Sample.{even_span, sample};
ghost use Rattle.definitions.specs.Draw.{sum_below, drawn_at};
ghost use Rattle.draw.specs.Weights.{weight_at};
ghost use Rattle.draw.specs.Samples.{SameSample, Undrawn};

use definitions::{IDS, THROWS};
use generator::Generator;
use tables::TERMS;

// How many values of 32 bits there are.
const VALUES: u64 = 4294967296;

// What a draw takes from the generator: the target, the sum of the rates in the draw, the generator after it, and how many steps it took.
#[derive(Clone, Copy)]
pub struct Sample {
    pub target: u32,
    pub sum: u64,
    pub generator: Generator,
    pub steps: u32,
}

// No draw: the generator is not stepped. It is a sample and no `None`, as `StandsFor`, which `slot::tick` promises, is of one.
pub fn undrawn(generator: Generator) -> Sample
    ensures { Undrawn generator result }
{
    Sample {
        target: 0,
        sum: 0,
        generator,
        steps: 0,
    }
}

// Whether a value counts: it is below the largest multiple of the total that is at most 2^32. It is, where the total fits between it
// and 2^32; that nearly always spares the division.
fn counts(value: u32, total: u64) -> bool
    ensures { result ≡ ltb value (even_span total) }
{
    if total == 0 {
        return false;
    }
    let number = u64::from(value);
    if total <= VALUES - number {
        return true;
    }
    number < VALUES - VALUES % total
}

// Whether the value that so many steps gave is thrown away.
fn is_thrown(value: u32, total: u64, steps: u32) -> bool
    ensures { result ≡ leb steps throws && not (ltb value (even_span total)) }
{
    steps <= THROWS && !counts(value, total)
}

// The remainder of a value; all of it, where the total is 0.
pub fn remainder(value: u32, total: u64) -> u32
    ensures { result ≡ value % total }
{
    if total == 0 {
        return value;
    }
    (u64::from(value) % total) as u32
}

// A target below the total, with even odds (paper 02, S-1): a value not below the largest multiple is thrown away, at most eight in
// one draw. For a total of 0 all eight are, and the ninth value is the target.
pub fn sample_below(total: u64, generator: Generator) -> Sample
    ensures { SameSample result (sample total generator.value) }
{
    let mut next = generator.step();
    // The steps are told; a `for` over the throws would give its answer at two places.
    let mut steps: u32 = 1;
    while is_thrown(next.value, total, steps) {
        next = next.step();
        steps += 1;
    }
    Sample {
        target: remainder(next.value, total),
        sum: total,
        generator: next,
        steps,
    }
}

// The rates of all ids that have a mark, together. The sum of 64 rates fits a u64.
// By a `for`: of `marks::ids(word).map(..).sum()` the check leaves open that an id is below 64 and that the sum fits.
pub fn total(word: u64, terms: &[u32; TERMS]) -> u64
    ensures { result ≡ sum_below ids (weight_at word terms.now) }
{
    let mut sum: u64 = 0;
    for id in marks::ids(word) {
        sum += u64::from(terms[id as usize]);
    }
    sum
}

// The first id at which the running sum of rates exceeds the target; 64 if it never does.
// A number and no None, as `drawn_at` of the definitions is.
pub fn pick(word: u64, terms: &[u32; TERMS], target: u32) -> u32
    ensures { result ≡ drawn_at (weight_at word terms.now) target }
{
    let limit = u64::from(target);
    let mut reached: u64 = 0;
    for id in marks::ids(word) {
        reached += u64::from(terms[id as usize]);
        if limit < reached {
            return id;
        }
    }
    IDS
}
