#![tactic(auto)]
// The plausible frame lengths of a request.
ghost use Rattle.std.specs.Prelude.{◌≡◌, ◌<◌};
ghost use Rattle.model.specs.Plan.{slot};
ghost use Rattle.model.specs.Plausible.{phase_rule, frame_rule, frame_rules, plausible};
ghost use Rattle.model.specs.Answers.{instance_of};

use cycle::Cycle;
use request::Task;

// The time that a transfer of the task takes in its row, with the g silent ticks after it.
pub fn slot(g: u8, task: Task) -> u32
    ensures { result ≡ slot g task }
{
    (task.c as u32) + (g as u32)
}

// Whether each window of the task holds a whole frame: with p for P mod gcd(f, T), 2f − gcd(f, T) ≤ D if p is 0, else 2f − p ≤ D.
fn phase_rule(f: u16, task: Task) -> bool
    requires { 0 < f }
    ensures { result ≡ phase_rule f task }
{
    let common = arith::gcd(f, task.t);
    let p = task.p % common;
    if p == 0 {
        return 2 * (f as u32) <= (task.d as u32) + (common as u32);
    }
    2 * (f as u32) <= (task.d as u32) + (p as u32)
}

// f ≥ C + g and the rule of the phase.
fn frame_rule(task: Task, g: u8, f: u16) -> bool
    requires { 0 < f }
    ensures { result ≡ frame_rule phase_rule g f task }
{
    slot(g, task) <= (f as u32) && phase_rule(f, task)
}

fn frame_rules(tasks: &[Task], g: u8, f: u16) -> bool
    requires { 0 < f }
    ensures { result ≡ frame_rules phase_rule g f tasks.now }
{
    tasks.iter().all(|task| frame_rule(*task, g, f))
}

// Whether f divides the cycle into at most 256 rows and keeps the frame rule of every task.
pub fn plausible(cycle: Cycle, f: u16) -> bool
    ensures { result ≡ plausible (instance_of cycle) f }
{
    // The tasks alone are lent: a part of the cycle would have it copied whole at each call.
    let tasks = cycle.tasks;
    let n = cycle.n.min(16);
    0 < f && cycle.h % f == 0 && cycle.h / f <= 256 && frame_rules(&tasks[..n], cycle.g, f)
}
