#![tactic(auto)]
// Moving a job by hand: a draft of a table is started from an accepted table, jobs are lifted and put elsewhere, and the draft is written as a table again,
// with numbers 26 to 28. A job is named by its place in planning order.
ghost use Rattle.std.specs.Prelude.{◌≡◌, false, ◌≤◌, ◌<◌, ◌%◌, ◌/◌, length, get_or};
ghost use Rattle.search.specs.Placing.{has_room};
ghost use Rattle.model.specs.Plan.{costs};
ghost use Rattle.model.specs.Answers.{instance_of};
ghost use Rattle.cursor.specs.Written.{written_said};
ghost use Rattle.plan_writer.specs.Outcome.{outcome_answer, outcome_buffer};
ghost use Rattle.draft.specs.Draft.{is_lifted, sound_draft, no_draft, touched, after_lift, can_move, put_there, start, lift, put, write};
ghost use Rattle.draft.specs.Numbered.{drafted_said};
ghost use Rattle.draft.specs.Answers.{placing, with_jobs, RowsFit, LoadsAre, Movable};

use cycle::{Cycle, Job};
use refusal::Refusal;

// The frame of a lifted job. It is a number, since the draft is lent to C as it stands.
const LIFTED: u16 = 65535;

// The frame length; for each job in planning order its frame, or LIFTED; and the load of each row. Unused places are kept.
#[derive(Clone, Copy)]
pub struct Draft {
    pub f: u16,
    pub frames: [u16; 128],
    pub loads: [u16; 256],
}

// The placed jobs in planning order, with their frames: in arrays with their count, since there is no heap.
#[derive(Clone, Copy)]
struct Placing {
    count: usize,
    jobs: [Job; 128],
    frames: [u16; 128],
}

// Those of the jobs that are not lifted.
fn placed(jobs: &[Job], frames: &[u16]) -> Placing
    requires { (length frames.now ≡ length jobs.now) × (length jobs.now ≤ 128) }
    ensures placing { result ≡ placing frames.now jobs.now }
    ensures few { result.count ≤ 128 }
{
    let mut their_jobs = [Job::NONE; 128];
    let mut their_frames = [0u16; 128];
    let mut count: usize = 0;
    for (job, k) in jobs.iter().zip(frames) {
        if *k != LIFTED {
            their_jobs[count] = *job;
            their_frames[count] = *k;
            count += 1;
        }
    }
    Placing {
        count,
        jobs: their_jobs,
        frames: their_frames,
    }
}

// The cycle with these jobs alone.
fn with_jobs(cycle: Cycle, jobs: [Job; 128], count: usize) -> Cycle
    ensures { result ≡ with_jobs cycle jobs count }
{
    Cycle {
        count,
        jobs,
        ..cycle
    }
}

// The sum of the slots of each row's jobs, carried ones included.
fn row_loads(cost: &[u32], frames: &[u16], rows: u16) -> [u16; 256]
    requires { (length frames.now ≡ length cost.now) × RowsFit rows cost.now frames.now }
    ensures { LoadsAre rows cost.now frames.now result }
{
    let mut loads = [0u16; 256];
    for (c, k) in cost.iter().zip(frames) {
        let row = usize::from(*k % rows);
        loads[row] += *c as u16;
    }
    loads
}

// Whether the frame length is plausible, the placed jobs keep window, capacity and order, and each load is its row's sum.
fn is_sound(cycle: Cycle, draft: Draft) -> bool
    ensures { result ≡ sound_draft (instance_of cycle) draft }
{
    if !model::plausible(cycle, draft.f) {
        return false;
    }
    let n = cycle.count.min(128);
    let standing = placed(&cycle.jobs[..n], &draft.frames[..n]);
    let count = standing.count;
    let jobs = standing.jobs;
    let part = with_jobs(cycle, jobs, count);
    let height = cycle.h / draft.f;
    if !plan_rules::rules_kept(part, &standing.frames, height, draft.f) {
        return false;
    }
    let cost = problem::costs(part);
    let sums = row_loads(&cost[..count], &standing.frames[..count], height);
    let rows = usize::from(height);
    draft.loads[..rows] == sums[..rows]
}

// Whether there is a job at place y, and the draft is sound.
fn can_move(cycle: Cycle, draft: Draft, y: usize) -> bool
    ensures { result ≡ can_move (instance_of cycle) draft y }
{
    y < cycle.count.min(128) && is_sound(cycle, draft)
}

// The row of frame k: k mod F, with F = H/f.
fn row_of(h: u16, f: u16, k: u16) -> usize
    requires { (0 < f) × (0 < h / f) × (h / f ≤ 256) }
    ensures { (result ≡ k % (h / f)) × (result < 256) }
{
    usize::from(k % (h / f))
}

// The C + g of the job at place y.
fn cost_at(cycle: Cycle, y: usize) -> u32
    requires { (y < cycle.count) × (cycle.count ≤ 128) }
    ensures { result ≡ get_or (costs (instance_of cycle)) y 0 }
{
    let tasks = cycle.tasks;
    problem::cost(tasks, cycle.n, cycle.g, cycle.jobs[y].task)
}

// The draft with frame k for the job at place y and this load for the row.
fn touched(draft: Draft, y: usize, k: u16, row: usize, load: u16) -> Draft
    requires { (y < 128) × (row < 256) }
    ensures { result ≡ touched draft y k row load }
{
    let mut after = draft;
    after.frames[y] = k;
    after.loads[row] = load;
    after
}

// The job is marked lifted, and its row has its C + g less.
fn after_lift(cycle: Cycle, draft: Draft, y: usize) -> Draft
    requires { Movable cycle draft y × (is_lifted (get_or draft.frames y 0) ≡ false) }
    ensures { result ≡ after_lift (instance_of cycle) draft y }
{
    let row = row_of(cycle.h, draft.f, draft.frames[y]);
    let cost = cost_at(cycle, y);
    touched(draft, y, LIFTED, row, draft.loads[row] - (cost as u16))
}

// Whether a row with this load has room for a job of this cost.
fn has_room(load: u16, f: u16, cost: u32) -> bool
    ensures { result ≡ has_room load f cost }
{
    u64::from(load) + u64::from(cost) <= u64::from(f)
}

// A lifted job is put into frame k; 27 where k lies outside its window, 28 where its row is over f or a pair is out of order.
fn put_there(cycle: Cycle, draft: Draft, y: usize, k: u16) -> Result<Draft, Refusal>
    requires { Movable cycle draft y }
    ensures { drafted_said draft result ≡ put_there (instance_of cycle) draft y k }
{
    if !plan_rules::in_window(cycle.jobs[y], k, draft.f) {
        return Err(Refusal::OutsideWindow);
    }
    let row = row_of(cycle.h, draft.f, k);
    let load = draft.loads[row];
    let cost = cost_at(cycle, y);
    if !has_room(load, draft.f, cost) {
        return Err(Refusal::RowOrOrder);
    }
    let after = touched(draft, y, k, row, load + (cost as u16));
    if !is_sound(cycle, after) {
        return Err(Refusal::RowOrOrder);
    }
    Ok(after)
}

// The draft of an accepted table; or the check's refusal.
pub fn start(request: &[u8], table: &[u8]) -> Result<Draft, Refusal>
    ensures { drafted_said no_draft result ≡ start request.now table.now }
{
    let read = checker::read_plan(request, table)?;
    let cycle = read.cycle;
    let (f, frames) = read.plan?;
    let cost = problem::costs(cycle);
    let loads = row_loads(&cost[..cycle.count], &frames[..cycle.count], cycle.h / f);
    Ok(Draft { f, frames, loads })
}

// The draft with the job at place `job` lifted; or the request's refusal or 26, and the caller keeps the draft as it was.
pub fn lift(request: &[u8], draft: Draft, job: u8) -> Result<Draft, Refusal>
    ensures { drafted_said draft result ≡ lift request.now draft job }
{
    let cycle = cycle::read(request)?;
    let y = usize::from(job);
    if !can_move(cycle, draft, y) || draft.frames[y] == LIFTED {
        return Err(Refusal::WrongDraft);
    }
    Ok(after_lift(cycle, draft, y))
}

// The draft with the lifted job at place `job` put into the frame; or the request's refusal, 26, 27 or 28, and the caller keeps the draft as it was.
pub fn put(request: &[u8], draft: Draft, job: u8, frame: u16) -> Result<Draft, Refusal>
    ensures { drafted_said draft result ≡ put request.now draft job frame }
{
    let cycle = cycle::read(request)?;
    let y = usize::from(job);
    if !can_move(cycle, draft, y) || draft.frames[y] != LIFTED {
        return Err(Refusal::WrongDraft);
    }
    put_there(cycle, draft, y, frame)
}

// The table of the draft's frame length and frames, written into `out`: its length; or the request's refusal, 26 or 11, which leaves `out` as it was.
pub fn write(request: &[u8], draft: Draft, out: &mut [u8]) -> Result<usize, Refusal>
    ensures { (written_said result ≡ outcome_answer (write request.now draft) out.old)
        × (out.new ≡ outcome_buffer (write request.now draft) out.old) }
{
    let cycle = cycle::read(request)?;
    let frames = draft.frames;
    if frames[..cycle.count].contains(&LIFTED) || !is_sound(cycle, draft) {
        return Err(Refusal::WrongDraft);
    }
    plan_writer::write(cycle, draft.f, frames, out)
}
