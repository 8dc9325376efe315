// The walk over a table's rows and entries: the entry that names a job, and whether each entry is a job's.
ghost use Rattle.std.specs.Prelude.{◌≡◌, ◌≤◌, ◌<◌, length, get_or};
ghost use Rattle.plan_rules.specs.Every.{every, some};
ghost use Rattle.checker.specs.Checked.{position_in, frame_for, frames_in, is_placed, is_there, row_kept, rows_kept};
ghost use Rattle.checker.specs.Answers.{frames_answer, entries_in, rows_of};

use cycle::Job;

// The byte at i, or 0 behind the end.
fn byte_or_zero(s: &[u8], i: usize) -> u8
    ensures { result ≡ get_or s.now i 0 }
{
    s.get(i).copied().unwrap_or(0)
}

fn frame(height: u16, row: u16, carried: bool) -> u16
    requires { (row < height) × (height ≤ 256) }
    ensures { result ≡ frame_for height row carried }
{
    if carried { row + height } else { row }
}

// Walks the rows, and in each row its entries, and stops at the first entry naming the job: its row, and its carry.
fn find(table: &[u8], height: u16, job: Job) -> Option<(u16, bool)>
    ensures { result ≡ position_in job 0 (rows_of table.now height) }
{
    let mut place = None;
    let mut at: usize = 7;
    'rows: for row in 0..height {
        let n = usize::from(byte_or_zero(table, at));
        for e in 0..n {
            let entry = at + 1 + 2 * e;
            let task = byte_or_zero(table, entry);
            let byte = byte_or_zero(table, entry + 1);
            if plan_rules::is_job(job, task, table::job::number(byte)) {
                place = Some((row, table::job::is_carried(byte)));
                break 'rows;
            }
        }
        at += 1 + 2 * n;
    }
    place
}

// The frame of each job, from its entry; none where some job has no entry.
pub(super) fn read_frames(table: &[u8], height: u16, jobs: &[Job]) -> Option<[u16; 128]>
    requires { (height ≤ 256) × (length jobs.now ≤ 128) }
    ensures { result ≡ frames_answer (every (length jobs.now) (is_placed (rows_of table.now height) jobs.now)) (frames_in (rows_of table.now height) jobs.now) }
{
    let mut frames = [0u16; 128];
    for (y, job) in jobs.iter().enumerate() {
        let (row, carried) = find(table, height, *job)?;
        frames[y] = frame(height, row, carried);
    }
    Some(frames)
}

// Whether some job is the one named and stands in frame k.
fn is_there(jobs: &[Job], frames: &[u16], task: u8, number: u8, k: u16) -> bool
    requires { length frames.now ≡ length jobs.now }
    ensures { result ≡ some (length jobs.now) (is_there jobs.now frames.now task number k) }
{
    jobs.iter().zip(frames).any(|(job, at)| plan_rules::is_job(*job, task, number) && *at == k)
}

// Whether each of n entries of a row, the first at `first`, is that of a job in its frame.
fn row_kept(
    table: &[u8],
    first: usize,
    n: u8,
    height: u16,
    row: u16,
    jobs: &[Job],
    frames: &[u16],
) -> bool
    requires { (first ≤ 200000) × (row < height) × (height ≤ 256) × (length frames.now ≡ length jobs.now) }
    ensures { result ≡ row_kept jobs.now frames.now (length jobs.now) height row (entries_in table.now n first) }
{
    for e in 0..n {
        let entry = first + 2 * usize::from(e);
        let task = byte_or_zero(table, entry);
        let byte = byte_or_zero(table, entry + 1);
        let k = frame(height, row, table::job::is_carried(byte));
        if !is_there(jobs, frames, task, table::job::number(byte), k) {
            return false;
        }
    }
    true
}

// Whether each entry of the table is that of a job in its frame.
pub(super) fn rows_kept(table: &[u8], height: u16, jobs: &[Job], frames: &[u16]) -> bool
    requires { (height ≤ 256) × (length frames.now ≡ length jobs.now) }
    ensures { result ≡ rows_kept jobs.now frames.now (length jobs.now) height 0 (rows_of table.now height) }
{
    let mut at: usize = 7;
    for row in 0..height {
        let n = byte_or_zero(table, at);
        if !row_kept(table, at + 1, n, height, row, jobs, frames) {
            return false;
        }
        at += 1 + 2 * usize::from(n);
    }
    true
}
