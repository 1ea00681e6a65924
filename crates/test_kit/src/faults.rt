//! Runs in which something fails.

use std::alloc::Global;
use std::test::Fail;

/// The run, in which at that place a transport gets a fault, after it has been let take so many sends.
pub fn with_fault<C: Copy>(
    alloc: Global,
    run: &[C],
    place: usize,
    (accept, sends): (C, usize),
    fault: C,
) -> Result<Vec<C>, Fail> {
    let (front, back) = run.split_at(place.min(run.len()));
    let mut steps = Vec::from_slice(alloc, front)?;
    for _ in 0..sends {
        steps.push(accept)?;
    }
    steps.push(fault)?;
    steps.extend_from_slice(back)?;
    Ok(steps)
}
