//! Whole runs of a plan.
ghost use Rattle.std.specs.Prelude.{◌≡◌, ◌<◌, ◌≤◌, ◌+◌, length, OnOk};
ghost use Rattle.plan_tests.specs.Run.{IsRun};

use crate::rows::plan;
use build_plan::Plan;
use std::alloc::Global;
use std::test::Fail;

/// What a run came to.
#[derive(Drop)]
pub struct Found {
    /// The places on a cycle.
    pub cycles: Vec<u32>,
    /// The places that were given, in order.
    pub order: Vec<u32>,
    /// How many had been given when nothing was ready any more: at first, and behind each place that was finished.
    pub steps: Vec<usize>,
    /// After how many finished places the plan said that it is done.
    pub done: Vec<usize>,
}

/// Runs the plan of these rows: takes all that is ready, finishes the place that came first, and so on.
pub fn run(alloc: Global, rows: Vec<Vec<u32>>) -> Result<Found, Fail> {
    let places = rows.len();
    let mut plan = plan(alloc, rows)?;
    let cycles = cycles(alloc, &plan, places)?;
    let mut order = Vec::new(alloc);
    let mut steps = Vec::new(alloc);
    let mut done = Vec::new(alloc);
    for finished in 0..=places {
        give(&mut plan, &mut order, places, finished)?;
        steps.push(order.len())?;
        if plan.is_done() {
            done.push(finished)?;
        }
        if finished >= order.len() {
            break;
        }
        finish(&mut plan, order.as_slice(), finished);
    }
    Ok(Found {
        cycles,
        order,
        steps,
        done,
    })
}

fn cycles(alloc: Global, plan: &Plan, places: usize) -> Result<Vec<u32>, Fail>
    requires { places ≡ length plan.now.rows }
{
    let mut cycles = Vec::new(alloc);
    for place in 0..places {
        if place < 5_000 && plan.on_cycle(place as u32) {
            cycles.push(place as u32)?;
        }
    }
    Ok(cycles)
}

// Takes all that is ready.
fn give(plan: &mut Plan, order: &mut Vec<u32>, places: usize, finished: usize) -> Result<(), Fail>
    requires run { IsRun plan.old order.old.items finished }
    requires finished { finished ≤ length order.old.items }
    ensures run { OnOk result (IsRun plan.new order.new.items finished) }
{
    for _ in 0..=places {
        match plan.ready() {
            Some(place) => order.push(place)?,
            None => return Ok(()),
        }
    }
    Err(Fail::new("more places than there are"))
}

// Finishes one more of the places that were given.
fn finish(plan: &mut Plan, order: &[u32], finished: usize)
    requires run { IsRun plan.old order.now finished }
    requires given { finished < length order.now }
    ensures { IsRun plan.new order.now (finished + 1) }
{
    plan.finish(order[finished]);
}
