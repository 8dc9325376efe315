#![tactic(auto)]
// The timeline of an accepted table: a record for each job of the cycle, in planning order.
ghost use Rattle.std.specs.Prelude.{◌≡◌, ◌<◌, length};
ghost use Rattle.job_records.specs.Timeline.{filling, filled_answer, filled_records};
ghost use Rattle.job_records.specs.Known.{known_answer, record_here};
ghost use Rattle.job_records.specs.Numbered.{filled_said, known_said};

use cycle::Job;
use refusal::Refusal;

// Task, job, release, due time and frame, which is counted from time 0.
#[derive(Clone, Copy)]
pub struct JobRecord {
    pub task: u8,
    pub job: u8,
    pub release: u16,
    pub due: u16,
    pub frame: u16,
}

// The jobs that a list is filled with, in planning order, and their frames, with zeros in the unused places.
#[derive(Clone, Copy)]
pub struct JobsKnown {
    pub count: usize,
    pub jobs: [Job; 128],
    pub frames: [u16; 128],
}

// The jobs of the request and the frames that the table gives them, for a list with so many places; or the check's refusal, or 11 where there are fewer places.
pub fn known(request: &[u8], table: &[u8], places: usize) -> Result<JobsKnown, Refusal>
    ensures { known_said result ≡ known_answer (filling request.now table.now places) }
{
    let read = checker::read_plan(request, table)?;
    let (_, frames) = read.plan?;
    let cycle = read.cycle;
    if places < cycle.count {
        return Err(Refusal::ShortBuffer);
    }
    let jobs = cycle.jobs;
    Ok(JobsKnown {
        count: cycle.count,
        jobs,
        frames,
    })
}

// The record of the job at place y.
pub fn record_at(known: JobsKnown, y: usize) -> JobRecord
    requires { y < 128 }
    ensures { result ≡ record_here known y }
{
    let job = known.jobs[y];
    JobRecord {
        task: job.task,
        job: job.number,
        release: job.release,
        due: job.due,
        frame: known.frames[y],
    }
}

// The first records are filled, one for each job of the cycle, in planning order: how many. Where the table is refused, or the list is too short, none is filled.
pub fn fill(request: &[u8], table: &[u8], records: &mut [JobRecord]) -> Result<usize, Refusal>
    ensures { (filled_said result ≡ filled_answer (filling request.now table.now (length records.old)))
        × (records.new ≡ filled_records (filling request.now table.now (length records.old)) records.old) }
{
    let known = known(request, table, records.len())?;
    for i in 0..known.count {
        records[i] = record_at(known, i);
    }
    Ok(known.count)
}
