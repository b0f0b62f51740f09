//! How long transactions took, and how they ended.

use crate::measuring::{Ending, finish};
use std::rt::Clock;
use std::time::{CpuClock, Duration, Instant};

/// How a transaction ends.
#[derive(Clone, Copy)]
pub(crate) enum End {
    /// It is committed.
    Committed,
    /// It has only read.
    Read,
    /// It is refused.
    Refused,
    /// Anything else, as want of memory.
    Other,
}

/// How many transactions committed, how many only read, how many were refused, and how many ended otherwise.
pub(crate) type Counts = [u64; 4];

/// Counts one more that ends so.
pub(crate) fn count(counts: &mut Counts, end: End) {
    if let Some(count) = counts.get_mut(end as usize) {
        *count = count.saturating_add(1);
    }
}

/// The time by now: by the clock, and what all threads together have used of the processors. None where a clock can't be read.
pub(crate) fn times(rt: &(impl Clock + CpuClock)) -> Option<(Instant, Duration)> {
    Some((Instant::now(rt).ok()?, rt.process_cpu_time().ok()?))
}

/// Says how long transactions took between two times, and how many numbers met a conflict.
fn say(rt: &impl Eprint, start: (Instant, Duration), end: (Instant, Duration), voids: u64) {
    let run = end.0.duration_since(start.0).as_micros();
    let cpu = end.1.saturating_sub(start.1).as_micros();
    let _ = eprintln!(rt; "run_us {run} cpu_us {cpu} voids {voids}");
}

/// Says how long transactions took between two times and how many numbers met a conflict, and prints how they ended.
pub(crate) fn tell(
    rt: &(impl Print + Eprint),
    start: Option<(Instant, Duration)>,
    end: Option<(Instant, Duration)>,
    voids: u64,
    counts: Counts,
) -> Option<Ending> {
    let (Some(start), Some(end)) = (start, end) else {
        return None;
    };
    say(rt, start, end, voids);
    let [committed, read, refused, other] = counts;
    finish(
        rt,
        format_args!("committed {committed} read {read} refused {refused} other {other}"),
    )
}
