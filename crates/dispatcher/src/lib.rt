#![tactic(auto)]
// The dispatcher: the entries of the next frame, the first-cycle mark and each task's count of overruns. It stands above the readers of tables and requests.
ghost use Rattle.std.specs.Prelude.{◌≡◌, ◌≤◌, ◌<◌};
ghost use Rattle.request.specs.Request.{reading};
ghost use Rattle.table.specs.Table.{decode};
ghost use Rattle.table.specs.Answers.{row_ok, row_given, entries_said};
ghost use Rattle.dispatcher.specs.Dispatch.{fresh_state, uncarried, framed, moved, next_frame, raised, reported};
ghost use Rattle.dispatcher.specs.Numbered.{frame_ok, frame_said, reported_said};

use refusal::Refusal;
use table::Row;

// The row that is served next, the mark of the first cycle and, for each of 16 tasks, the count of its overruns.
#[derive(Clone, Copy)]
pub struct State {
    pub row: u16,
    pub first: bool,
    pub counts: [u16; 16],
}

// The entries to serve in 16 places, filled from the first, as task bytes and job bytes; and the state for the next call.
#[derive(Clone, Copy)]
pub struct Frame {
    pub count: usize,
    pub tasks: [u8; 16],
    pub jobs: [u8; 16],
    pub state: State,
}

// Whether the report was above C, and the state for the next call.
#[derive(Clone, Copy)]
pub struct Reported {
    pub over: bool,
    pub state: State,
}

pub fn fresh() -> State
    ensures { result ≡ fresh_state }
{
    State {
        row: 0,
        first: true,
        counts: [0; 16],
    }
}

fn frame_of(row: Row, state: State) -> Frame
    ensures { frame_ok result ≡ framed (row_ok row) state }
{
    let Row { count, tasks, jobs } = row;
    Frame {
        count,
        tasks,
        jobs,
        state,
    }
}

// The row without its carried entries: those left close up.
fn without_carried(row: Row) -> Row
    requires { row.count ≤ 16 }
    ensures { row_ok result ≡ row_given (uncarried (entries_said (row_ok row))) }
{
    let mut tasks = [0u8; 16];
    let mut jobs = [0u8; 16];
    let mut count: usize = 0;
    for i in 0..row.count {
        let job = row.jobs[i];
        if !table::job::is_carried(job) {
            tasks[count] = row.tasks[i];
            jobs[count] = job;
            count += 1;
        }
    }
    Row { count, tasks, jobs }
}

// The row moves on by one, and from the last row to 0 with the mark cleared.
fn move_on(height: u16, state: State) -> State
    requires { state.row < height }
    ensures { result ≡ moved height state }
{
    if height - state.row == 1 {
        return State {
            row: 0,
            first: false,
            ..state
        };
    }
    State {
        row: state.row + 1,
        ..state
    }
}

// The entries of the state's row, without the carried ones in the first cycle: 12 where the bytes are no table, 15 where the row is not below F.
// On a refusal the caller keeps its state, here as in a report.
pub fn next_frame(table: &[u8], state: State) -> Result<Frame, Refusal>
    ensures { frame_said state result ≡ next_frame (decode table.now) state }
{
    let (sizes, found) = table::read::row_and_sizes(table, state.row)?;
    let Some(row) = found else {
        return Err(Refusal::NoSuchRow);
    };
    let after = move_on(sizes.height, state);
    if state.first {
        let kept = without_carried(row);
        return Ok(frame_of(kept, after));
    }
    Ok(frame_of(row, after))
}

// One overrun more, up to 65,535.
fn count_overrun(over: bool, count: u16) -> u16
    ensures { result ≡ raised over count }
{
    if over { count.saturating_add(1) } else { count }
}

// The ticks that a task used: more than C are an overrun, and its own count rises. 1 to 6 or 17 where the bytes are no request, 16 where it has no such task.
pub fn report(request: &[u8], task: u8, ticks: u32, state: State) -> Result<Reported, Refusal>
    ensures { reported_said state result ≡ reported (reading request.now) task ticks state }
{
    let read = request::read(request)?;
    let i = task as usize;
    if read.n <= i {
        return Err(Refusal::NoSuchTask);
    }
    let over = (read.tasks[i].c as u32) < ticks;
    let mut counts = state.counts;
    counts[i] = count_overrun(over, counts[i]);
    Ok(Reported {
        over,
        state: State { counts, ..state },
    })
}
