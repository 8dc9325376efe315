#![tactic(auto)]
// What `fly` prints, put as bytes into a lent buffer from its front: as much as there is room for. Bytes behind it keep their old content, and the answer
// is where it ends.
ghost use Rattle.std.specs.Prelude.{◌*◌, ◌/◌, ◌-◌, ◌≤◌, ◌<◌, ◌≡◌, cond};
ghost use Rattle.table.specs.Table.{carried_in, entry_of, decode};
ghost use Rattle.dispatcher.specs.Dispatch.{entries_of};
ghost use Rattle.dispatcher.specs.Numbered.{frame_ok};
ghost use Rattle.text.specs.Text.{filled_to, put_all_of, PutIn};
ghost use Rattle.plan_listing.specs.Listing.{each};
ghost use Rattle.fly_listing.specs.Flown.{served_text, frame_line, flight_listing};
ghost use Rattle.fly_listing.specs.Answers.{FramesPut, FlightPut};

use dispatcher::Frame;
use refusal::Refusal;
use table::Sizes;

// The cycle of an entry's job, in cycle q: a carried one is of the cycle before.
fn job_cycle(job: u8, q: u32) -> u32
    ensures { result ≡ cond (carried_in job) (q - 1) q }
{
    if table::job::is_carried(job) {
        q.saturating_sub(1)
    } else {
        q
    }
}

fn put_served(out: &mut [u8], at: usize, task: u8, job: u8, q: u32) -> usize
    ensures { filled_to result out.new ≡ put_all_of (filled_to at out.old) (served_text q (entry_of task job)) }
{
    let name = plan_listing::entry::put_name(out, at, task, job);
    let mark = text::put(out, name, b'@');
    text::put_number(out, mark, job_cycle(job, q))
}

fn put_entries(out: &mut [u8], at: usize, frame: Frame, q: u32) -> usize
    requires { frame.count ≤ 16 }
    ensures { filled_to result out.new ≡ put_all_of (filled_to at out.old) (each (served_text q) (entries_of (frame_ok frame))) }
{
    let mut end = at;
    for i in 0..frame.count {
        end = put_served(out, end, frame.tasks[i], frame.jobs[i], q);
    }
    end
}

// Frame m of a table with frames of length f, F rows to a cycle.
fn put_frame(out: &mut [u8], at: usize, m: u32, sizes: Sizes, frame: Frame) -> usize
    requires { (m < 768) × (0 < sizes.height) × (frame.count ≤ 16) }
    ensures { filled_to result out.new ≡ put_all_of (filled_to at out.old) (frame_line m (m * sizes.f) (m / sizes.height) (entries_of (frame_ok frame))) }
{
    let name = text::put_all(out, at, b"frame ");
    let number = text::put_number(out, name, m);
    let start = text::put_all(out, number, b" start ");
    let time = text::put_number(out, start, m * sizes.f as u32);
    let entries = put_entries(out, time, frame, m / sizes.height as u32);
    text::put(out, entries, b'\n')
}

// Three cycles of the table, from the fresh state on; where it cannot be read, `out` is left as it was.
fn put_frames(out: &mut [u8], table: &[u8]) -> Result<usize, Refusal>
    ensures { FramesPut result (decode table.now) out.old out.new }
{
    let sizes = table::read::sizes(table)?;
    let frames = 3 * sizes.height as u32;
    let mut state = dispatcher::fresh();
    let mut end: usize = 0;
    for m in 0..frames {
        let frame = dispatcher::next_frame(table, state)?;
        state = frame.state;
        end = put_frame(out, end, m, sizes, frame);
    }
    Ok(end)
}

// Three cycles of the request's plan in flight, where there is one; a refusal leaves `out` as it was.
fn put_flight(request: &[u8], out: &mut [u8]) -> Result<usize, Refusal>
    ensures { FlightPut result request.now out.old out.new }
{
    let mut table = [0u8; 519];
    let length = planner::plan(request, planner::PROGRAM_TRIES, &mut table).outcome?;
    put_frames(out, &table[..length])
}

// Three cycles of the request's plan in flight, or the line of its refusal, within the tries that a program allows.
pub fn list(request: &[u8], out: &mut [u8]) -> usize
    ensures { PutIn (flight_listing request.now) out.old result out.new }
{
    match put_flight(request, out) {
        Ok(end) => end,
        Err(refusal) => plan_listing::refused(refusal.number(), out),
    }
}
