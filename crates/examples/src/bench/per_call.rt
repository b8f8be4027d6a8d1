//! The time of one call.
use std::time::Duration;

/// The time of one call of so many, in hundredths of a nanosecond, rounded down. No calls count as one.
pub fn hundredths_for_one(time: Duration, calls: u32) -> u64 {
    let nanos = time
        .as_secs()
        .saturating_mul(1_000_000_000)
        .saturating_add(u64::from(time.subsec_nanos()));
    nanos.saturating_mul(100) / u64::from(calls.max(1))
}
