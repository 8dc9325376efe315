#![tactic(auto)]
// What `timeline` prints, put as bytes into a lent buffer from its front: as much as there is room for. Bytes behind it keep their old content, and the
// answer is where it ends.
ghost use Rattle.std.specs.Prelude.{◌≤◌, ◌≡◌, ◌++◌, length};
ghost use Rattle.request.specs.Request.{reading};
ghost use Rattle.text.specs.Text.{ascii, decimal_of, filled_to, put_all_of, PutIn};
ghost use Rattle.job_records.specs.Timeline.{filling, busy_of};
ghost use Rattle.job_records.specs.Known.{records_known};
ghost use Rattle.timeline_listing.specs.Printed.{record_line, record_lines, busy_line, timeline_text};
ghost use Rattle.timeline_listing.specs.Answers.{TimelinePut, ListPut};

use job_records::{JobRecord, JobsKnown};
use refusal::Refusal;
use request::Task;

// A number and a space.
fn put_field(out: &mut [u8], at: usize, n: u32) -> usize
    ensures { filled_to result out.new ≡ put_all_of (filled_to at out.old) (decimal_of n ++ ascii " ") }
{
    let number = text::put_number(out, at, n);
    text::put(out, number, b' ')
}

fn put_record(out: &mut [u8], at: usize, job: JobRecord) -> usize
    ensures { filled_to result out.new ≡ put_all_of (filled_to at out.old) (record_line job) }
{
    let task = put_field(out, at, job.task as u32);
    let number = put_field(out, task, job.job as u32);
    let release = put_field(out, number, job.release as u32);
    let due = put_field(out, release, job.due as u32);
    let frame = text::put_number(out, due, job.frame as u32);
    text::put(out, frame, b'\n')
}

fn put_records(out: &mut [u8], at: usize, known: JobsKnown) -> usize
    requires { known.count ≤ 128 }
    ensures { filled_to result out.new ≡ put_all_of (filled_to at out.old) (record_lines (records_known known)) }
{
    let mut end = at;
    for y in 0..known.count {
        end = put_record(out, end, job_records::record_at(known, y));
    }
    end
}

// The sum of C over the records.
fn busy(known: JobsKnown, tasks: [Task; 16]) -> u32
    requires { (known.count ≤ 128) × (length tasks ≡ 16) }
    ensures { result ≡ busy_of tasks (records_known known) }
{
    let mut sum: u32 = 0;
    for job in &known.jobs[..known.count] {
        sum += plan_listing::ticks::cost(tasks, job.task) as u32;
    }
    sum
}

fn put_busy(out: &mut [u8], at: usize, ticks: u32) -> usize
    ensures { filled_to result out.new ≡ put_all_of (filled_to at out.old) (busy_line ticks) }
{
    let name = text::put_all(out, at, b"busy ");
    let number = text::put_number(out, name, ticks);
    text::put(out, number, b'\n')
}

// The records of a table that the check accepts, and the sum of C over them; where it refuses, `out` is left as it was. A list of 128 places holds the jobs
// of every cycle.
fn put_timeline(out: &mut [u8], request: &[u8], table: &[u8]) -> Result<usize, Refusal>
    ensures { TimelinePut result (reading request.now) (filling request.now table.now 128) out.old out.new }
{
    let known = job_records::known(request, table, 128)?;
    let read = request::read(request)?;
    let end = put_records(out, 0, known);
    Ok(put_busy(out, end, busy(known, read.tasks)))
}

// The timeline of the request's plan, where there is one; a refusal leaves `out` as it was.
fn put_list(request: &[u8], out: &mut [u8]) -> Result<usize, Refusal>
    ensures { ListPut result request.now out.old out.new }
{
    let mut table = [0u8; 519];
    let length = planner::plan(request, planner::PROGRAM_TRIES, &mut table).outcome?;
    put_timeline(out, request, &table[..length])
}

// The timeline of the request's plan, or the line of its refusal, within the tries that a program allows.
pub fn list(request: &[u8], out: &mut [u8]) -> usize
    ensures { PutIn (timeline_text request.now) out.old result out.new }
{
    match put_list(request, out) {
        Ok(end) => end,
        Err(refusal) => plan_listing::refused(refusal.number(), out),
    }
}
