#![tactic(auto)]
// The check of a table against its request: whether it describes a plan, and which.
mod walk;

ghost use Rattle.std.specs.Prelude.{◌≡◌, ◌≤◌};
ghost use Rattle.refusal.specs.Refusal.{refusal_in};
ghost use Rattle.cycle.specs.Cycle.{cycle_of};
ghost use Rattle.cycle.specs.Answers.{cycle_answered};
ghost use Rattle.table.specs.Table.{decode};
ghost use Rattle.model.specs.Answers.{instance_of};
ghost use Rattle.model.specs.Within.{InLimits};
ghost use Rattle.checker.specs.Checked.{plan_of, checked, check_number};
ghost use Rattle.checker.specs.Answers.{read_answer, cycle_in, rows_of};
ghost use Rattle.checker.specs.Numbered.{read_said, found_said};

use cycle::Cycle;
use refusal::Refusal;

// What the check read: the request's cycle, and the frame length and the jobs' frames in planning order; or the refusal of the table.
#[derive(Clone, Copy)]
pub struct Read {
    pub cycle: Cycle,
    pub plan: Result<(u16, [u16; 128]), Refusal>,
}

// The frame length and the jobs' frames of the plan that the table's rows describe. The cycle is not among them, so that it is not copied.
fn read_rows(cycle: Cycle, table: &[u8], height: u16, f: u16) -> Result<(u16, [u16; 128]), Refusal>
    requires { (cycle.count ≤ 128) × (height ≤ 256) }
    ensures { found_said cycle result ≡ read_answer cycle (plan_of (instance_of cycle) f (rows_of table.now height)) }
{
    let count = cycle.count;
    let jobs = &cycle.jobs[..count];
    let Some(frames) = walk::read_frames(table, height, jobs) else {
        return Err(Refusal::NotAPlan);
    };
    if !walk::rows_kept(table, height, jobs, &frames[..count]) {
        return Err(Refusal::NotAPlan);
    }
    if !plan_rules::rules_kept(cycle, &frames, height, f) {
        return Err(Refusal::NotAPlan);
    }
    Ok((f, frames))
}

// The frame length and the jobs' frames of the plan of the cycle that the table describes; or the refusal of the table, with a number from 12 to 14.
fn judge(cycle: Cycle, table: &[u8]) -> Result<(u16, [u16; 128]), Refusal>
    requires { InLimits cycle }
    ensures { found_said cycle result ≡ read_answer cycle (checked (cycle_in cycle) (decode table.now)) }
{
    let sizes = table::read::sizes(table)?;
    if sizes.h != cycle.h || !model::plausible(cycle, sizes.f) {
        return Err(Refusal::WrongSizes);
    }
    read_rows(cycle, table, sizes.height, sizes.f)
}

// The request's cycle, and beside it the plan that the table describes, or the refusal of the table, with a number from 12 to 14; or the refusal of the request,
// with a number from 1 to 8 or 17.
pub fn read_plan(request: &[u8], table: &[u8]) -> Result<Read, Refusal>
    ensures { read_said result ≡ read_answer (cycle_answered (cycle_of request.now)) (checked (cycle_of request.now) (decode table.now)) }
{
    let cycle = cycle::read(request)?;
    let plan = judge(cycle, table);
    Ok(Read { cycle, plan })
}

// Nothing where the table describes a plan of the request; or the refusal.
pub fn check(request: &[u8], table: &[u8]) -> Result<(), Refusal>
    ensures { refusal_in result ≡ check_number request.now table.now }
{
    let cycle = cycle::read(request)?;
    judge(cycle, table)?;
    Ok(())
}
