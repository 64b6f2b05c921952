// The bucket of an indifferent client (paper 01, "Clients, queues, pools"): the refill of the bucket that it is lent, and what it
// buys in some ticks. `Bucket` and `refill` are public since the paper names this form.
#![tactic(auto)]

ghost use Rattle.std.specs.Prelude.{◌≡◌, ◌^◌, ◌<◌};
ghost use Rattle.definitions.specs.Stretch.{tokens};
ghost use Rattle.bucket.specs.Buckets.{bucket_of, Within, level_after, refilled};

use definitions::SHARES;

#[derive(Clone, Copy)]
pub struct Bucket {
    pub level: u32,
    pub rate: u32,
    pub burst: u32,
}

// The level after one refill: the rate is added, up to the burst. Within the limits no sum wraps.
#[tactic(auto, unfolding(definitions::specs::Sizes::shares, definitions::specs::Sizes::burst_limit))]
fn filled(level: u32, rate: u32, burst: u32) -> u32
    requires { Within (bucket_of level rate burst) }
    ensures { result ≡ level_after (bucket_of level rate burst) }
{
    let full = burst * SHARES;
    let sum = level + rate;
    sum.min(full)
}

// Refills the bucket where it is kept. Rate and burst stay.
pub fn refill(bucket: &mut Bucket)
    requires { Within bucket.old }
    ensures { bucket.new ≡ refilled bucket.old }
{
    bucket.level = filled(bucket.level, bucket.rate, bucket.burst);
}

// From three numbers to a bucket and back: its contract says nothing of a reference.
pub fn level_after(level: u32, rate: u32, burst: u32) -> u32
    requires { Within (bucket_of level rate burst) }
    ensures { result ≡ (refilled (bucket_of level rate burst)).level }
{
    let mut bucket = Bucket { level, rate, burst };
    refill(&mut bucket);
    bucket.level
}

// How many packets a level and the rate of so many ticks buy. The sum fits for any numbers of 32 bits.
pub fn tokens(level: u32, rate: u32, ticks: u32) -> u64
    ensures { (result ≡ tokens level rate ticks) × (result < 2 ^ 54) }
{
    (u64::from(level) + u64::from(ticks) * u64::from(rate)) / u64::from(SHARES)
}
