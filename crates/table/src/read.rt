// Reading a table: each part by a cursor, the rows from the part of the bytes behind the sizes.
ghost use Rattle.std.specs.Prelude.{◌≡◌, replicate};
ghost use Rattle.std.specs.Option.{ok_or};
ghost use Rattle.table.specs.Table.{decode, whole_table, rows_from, height_fits};
ghost use Rattle.table.specs.Answers.{sizes_said, table_said, taken_said, sizes_of, row_answer, table_read, first_row, row_at};
ghost use Rattle.table.specs.Promises.{EntryAt, RowAt, SizesAt};

use crate::{Row, Sizes};
use cursor::Cursor;
use refusal::Refusal;

// An entry whose task is at least `low`: its task byte and its job byte.
fn read_entry(s: &[u8], first: Cursor, low: u8) -> Option<(u8, u8, Cursor)>
    ensures { EntryAt s.now first.at low result }
{
    let (task, second) = first.byte(s)?;
    if !(low..16).contains(&task) {
        return None;
    }
    let (job, next) = second.byte(s)?;
    Some((task, job, next))
}

// A row, whose entries go into the places of `tasks` and `jobs`, so that a row that is passed over is not copied: their number, and the cursor behind it.
fn read_row(
    s: &[u8],
    first: Cursor,
    tasks: &mut [u8; 16],
    jobs: &mut [u8; 16],
) -> Option<(usize, Cursor)>
    requires { (tasks.old ≡ replicate 16 0) × (jobs.old ≡ replicate 16 0) }
    ensures { RowAt s.now first.at tasks.new jobs.new result }
{
    let (count, start) = first.byte(s)?;
    if 16 < count {
        return None;
    }
    let n = count as usize;
    let mut low: u8 = 0;
    let mut here = start;
    for i in 0..n {
        let (task, job, next) = read_entry(s, here, low)?;
        tasks[i] = task;
        jobs[i] = job;
        low = task + 1;
        here = next;
    }
    Some((n, here))
}

// f and H.
fn read_sizes(s: &[u8]) -> Option<(u16, u16, Cursor)>
    ensures { SizesAt s.now result }
{
    let first = Cursor { at: 0 };
    let (mark, second) = first.byte(s)?;
    if mark != 2 {
        return None;
    }
    let (f, third) = second.word(s)?;
    let (h, next) = third.word(s)?;
    if !(1..=10000).contains(&h) {
        return None;
    }
    Some((f, h, next))
}

// 1 ≤ F ≤ 256 and F·f = H, in whole numbers.
fn height_fits(height: u16, f: u16, h: u16) -> bool
    ensures { result ≡ height_fits height (record { f = f; h = h }) }
{
    (1..=256).contains(&height) && (height as u32) * (f as u32) == (h as u32)
}

// The section of the rows, from the front of s; the row k is kept.
fn read_rows(s: &[u8], f: u16, h: u16, k: u16) -> Option<(Sizes, Option<Row>)>
    ensures { table_said (ok_or result Refusal.NotATable) ≡ table_read k (whole_table (rows_from (record { f = f; h = h }) s.now)) }
{
    let first = Cursor { at: 0 };
    let (height, start) = first.word(s)?;
    if !height_fits(height, f, h) {
        return None;
    }
    let mut kept = None;
    let mut here = start;
    for i in 0..height {
        let mut tasks = [0u8; 16];
        let mut jobs = [0u8; 16];
        let (count, next) = read_row(s, here, &mut tasks, &mut jobs)?;
        if i == k {
            kept = Some(Row { count, tasks, jobs });
        }
        here = next;
    }
    if here.at < s.len() {
        return None;
    }
    Some((Sizes { f, h, height }, kept))
}

// The sizes, and the row k where the table has one: the rows are read from the part of the bytes behind the sizes.
pub fn row_and_sizes(table: &[u8], k: u16) -> Result<(Sizes, Option<Row>), Refusal>
    ensures { ((table_said result).sizes ≡ sizes_of (decode table.now)) × ((table_said result).row ≡ row_answer k (decode table.now)) }
{
    let Some((f, h, next)) = read_sizes(table) else {
        return Err(Refusal::NotATable);
    };
    read_rows(&table[next.at..], f, h, k).ok_or(Refusal::NotATable)
}

// f, H and F, where the bytes have the form.
pub fn sizes(table: &[u8]) -> Result<Sizes, Refusal>
    ensures { sizes_said result ≡ sizes_of (decode table.now) }
{
    let (sizes, _) = row_and_sizes(table, 0)?;
    Ok(sizes)
}

// Where the first row begins: behind the sizes and F.
pub fn first_row() -> Cursor
    ensures { result ≡ first_row }
{
    Cursor { at: 7 }
}

// The row that begins at the cursor, and the cursor behind it, where the next row begins; none where there is no row.
pub fn next_row(table: &[u8], here: Cursor) -> Option<(Row, Cursor)>
    ensures { taken_said here.at result ≡ row_at table.now here.at }
{
    let mut tasks = [0u8; 16];
    let mut jobs = [0u8; 16];
    let (count, next) = read_row(table, here, &mut tasks, &mut jobs)?;
    Some((Row { count, tasks, jobs }, next))
}
