#![tactic(auto)]
// The rules of a plan, on the frames of its jobs: window, capacity and order.
ghost use Rattle.std.specs.Prelude.{◌≡◌, ◌≤◌, ◌<◌, length, min};
ghost use Rattle.cursor.specs.Padded.{firsts};
ghost use Rattle.model.specs.Named.{is_job};
ghost use Rattle.model.specs.Answers.{instance_of};
ghost use Rattle.plan_rules.specs.Every.{every};
ghost use Rattle.plan_rules.specs.Rules.{in_window, window_kept, one_kept, pair_kept, capacity_kept, rules_right};
ghost use Rattle.plan_rules.specs.Earliest.{Earliest};

use cycle::{Cycle, Job};
use request::Pair;

// Whether it is job `number` of the task.
pub fn is_job(job: Job, task: u8, number: u8) -> bool
    ensures { result ≡ is_job task number job }
{
    job.task == task && job.number == number
}

// k·f ≥ r and (k+1)·f ≤ r + D.
pub fn in_window(job: Job, k: u16, f: u16) -> bool
    ensures { result ≡ in_window f job k }
{
    let start = u32::from(k) * u32::from(f);
    start >= u32::from(job.release) && start + u32::from(f) <= u32::from(job.due)
}

// Whether each job's frame lies in its window.
fn windows_kept(jobs: &[Job], frames: &[u16], f: u16) -> bool
    requires { length frames.now ≡ length jobs.now }
    ensures { result ≡ every (length jobs.now) (window_kept jobs.now frames.now f) }
{
    jobs.iter()
        .zip(frames)
        .all(|(job, k)| in_window(*job, *k, f))
}

// Whether the slots of the jobs in each row, carried ones included, add up to at most f: the load of each row is kept, and no job is put where
// there is no room for it.
fn capacity_kept(cost: &[u32], frames: &[u16], rows: u16, f: u16) -> bool
    requires { (length frames.now ≡ length cost.now) × (0 < rows) × (rows ≤ 256) }
    ensures { result ≡ every rows (capacity_kept rows cost.now frames.now f) }
{
    let length = u32::from(f);
    let mut load = [0u32; 256];
    for (c, k) in cost.iter().zip(frames) {
        let row = usize::from(*k % rows);
        if *c > length - load[row] {
            return false;
        }
        load[row] += *c;
    }
    true
}

// The frame of job `number` of task b, for each number: the earliest, or 65,535 where there is none.
// No Option: no frame exceeds 65,535, so the least of frames and what is compared with it need no case for none.
fn earliest_frames(jobs: &[Job], frames: &[u16], b: u8) -> [u16; 256]
    requires { length frames.now ≡ length jobs.now }
    ensures { Earliest jobs.now frames.now b (length jobs.now) result }
{
    let mut earliest = [65535u16; 256];
    for (job, k) in jobs.iter().zip(frames) {
        if job.task == b {
            let number = usize::from(job.number);
            earliest[number] = earliest[number].min(*k);
        }
    }
    earliest
}

// Whether each job of task a has the frame of its job of task b or an earlier one.
fn pair_kept(jobs: &[Job], frames: &[u16], a: u8, b: u8) -> bool
    requires { length frames.now ≡ length jobs.now }
    ensures { result ≡ every (length jobs.now) (one_kept jobs.now frames.now (length jobs.now) a b) }
{
    let earliest = earliest_frames(jobs, frames, b);
    // No `all`: that a number is below 256 is known of a job that the loop's own body reads, and not of one that a closure reads.
    for (job, k) in jobs.iter().zip(frames) {
        if job.task == a && *k > earliest[usize::from(job.number)] {
            return false;
        }
    }
    true
}

fn pairs_kept(pairs: &[Pair], jobs: &[Job], frames: &[u16]) -> bool
    requires { length frames.now ≡ length jobs.now }
    ensures { result ≡ every (length pairs.now) (pair_kept jobs.now frames.now (length jobs.now) pairs.now) }
{
    pairs
        .iter()
        .all(|pair| pair_kept(jobs, frames, pair.a, pair.b))
}

// Whether the frames of the cycle's jobs, of length f in `rows` rows, keep windows, capacity and order. More than 256 rows are no plan's.
pub fn rules_kept(cycle: Cycle, frames: &[u16; 128], rows: u16, f: u16) -> bool
    ensures { result ≡ rules_right (instance_of cycle) rows f (firsts (min cycle.count 128) 0 frames.now) }
{
    if rows < 1 || 256 < rows {
        return false;
    }
    let count = cycle.count.min(128);
    let jobs = &cycle.jobs[..count];
    let frames = &frames[..count];
    if !windows_kept(jobs, frames, f) {
        return false;
    }
    let cost = problem::costs(cycle);
    let pairs = &cycle.pairs[..cycle.m.min(16)];
    capacity_kept(&cost[..count], frames, rows, f) && pairs_kept(pairs, jobs, frames)
}
