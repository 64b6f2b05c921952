// Opens, and emptyings of queues, exported for C.
#![tactic(auto)]

// Rounds that empty clients with packets waiting.
#[unsafe(no_mangle)]
pub extern "C" fn bench_emptying(
    clients: u32,
    kind: u32,
    each: u32,
    filling: u32,
    to: u32,
    end: u32,
    rounds: u32,
) -> u64 {
    emptying::bench_emptying(clients, kind, each, filling, to, end, rounds)
}

// Rounds of opening anew.
#[unsafe(no_mangle)]
pub extern "C" fn bench_opening(rounds: u32) -> u64 {
    emptying::bench_opening(rounds)
}
