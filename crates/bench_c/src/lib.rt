// The benchmark's sequences, exported for C.
#![tactic(auto)]

// A whole sequence on a fresh core: mode 0 is arrivals and ticks, mode 64 only refused calls.
#[unsafe(no_mangle)]
pub extern "C" fn bench_run(
    privates: u32,
    indifferents: u32,
    discipline: u32,
    depth: u32,
    mode: u32,
    rounds: u32,
) -> u64 {
    bench::bench_run(privates, indifferents, discipline, depth, mode, rounds)
}

// Fair rates of lists of so many demands, none of them above the highest.
#[unsafe(no_mangle)]
pub extern "C" fn bench_fair(count: u32, threshold: u32, highest: u32, rounds: u32) -> u64 {
    bench::bench_fair(count, threshold, highest, rounds)
}
