//! Runs that are shown step by step.
use crate::running::Plan;
use run::{Report, State};
use std::alloc::{AllocError, Global};

/// How many steps are shown one by one; those behind them are granted at once.
const MOST_SHOWN: u32 = 1000;

/// The plan of a run that ended with this report, with one step in each slot. A step that had no room is granted too.
pub(crate) fn single_steps(heap: Global, plan: &Plan, ended: Report) -> Result<Plan, AllocError> {
    let steps = match ended.state {
        State::NoStore { .. } => ended.count.saturating_add(1),
        _ => ended.count,
    };
    let shown = steps.min(MOST_SHOWN);
    let mut slots = vec![in heap; 1u32; shown as usize]?;
    if steps > shown {
        slots.push(steps - shown)?;
    }
    Ok(Plan {
        readings: plan.readings.iter().copied().collect(heap)?,
        slots,
    })
}
