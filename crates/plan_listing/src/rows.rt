// The listing of a table: a line with its sizes and a line for each row.
ghost use Rattle.std.specs.Prelude.{◌≤◌, ◌≡◌, ◌++◌, length};
ghost use Rattle.request.specs.Request.{reading};
ghost use Rattle.table.specs.Table.{decode, entry_of};
ghost use Rattle.table.specs.Answers.{row_ok, entries_said};
ghost use Rattle.text.specs.Text.{decimal_of, filled_to, put_all_of};
ghost use Rattle.plan_listing.specs.Listing.{head_line, busy_ticks, entry_text, each, row_line, row_lines};
ghost use Rattle.plan_listing.specs.Answers.{table_in, TablePut};

use crate::entry::put_name;
use crate::ticks::cost;
use refusal::Refusal;
use request::Task;
use table::{Row, Sizes};

// A carried entry is followed by `+`.
fn put_entry(out: &mut [u8], at: usize, task: u8, job: u8) -> usize
    ensures { filled_to result out.new ≡ put_all_of (filled_to at out.old) (entry_text (entry_of task job)) }
{
    let name = put_name(out, at, task, job);
    if !table::job::is_carried(job) {
        return name;
    }
    text::put(out, name, b'+')
}

fn put_entries(out: &mut [u8], at: usize, row: Row) -> usize
    requires { row.count ≤ 16 }
    ensures { filled_to result out.new ≡ put_all_of (filled_to at out.old) (each entry_text (entries_said (row_ok row))) }
{
    let mut end = at;
    for i in 0..row.count {
        end = put_entry(out, end, row.tasks[i], row.jobs[i]);
    }
    end
}

// The sum of C over the row's entries, carried ones included.
fn busy(row: Row, tasks: [Task; 16]) -> u32
    requires { (row.count ≤ 16) × (length tasks ≡ 16) }
    ensures { result ≡ busy_ticks tasks (entries_said (row_ok row)) }
{
    let mut sum: u32 = 0;
    for &entry in &row.tasks[..row.count] {
        sum += cost(tasks, entry) as u32;
    }
    sum
}

fn put_row(out: &mut [u8], at: usize, k: u16, row: Row, tasks: [Task; 16]) -> usize
    requires { (row.count ≤ 16) × (length tasks ≡ 16) }
    ensures { filled_to result out.new ≡ put_all_of (filled_to at out.old) (row_line tasks k (entries_said (row_ok row))) }
{
    let number = text::put_number(out, at, k as u32);
    let space = text::put(out, number, b' ');
    let ticks = text::put_number(out, space, busy(row, tasks));
    let entries = put_entries(out, ticks, row);
    text::put(out, entries, b'\n')
}

fn put_rows(out: &mut [u8], at: usize, table: &[u8], height: u16, tasks: [Task; 16]) -> usize
    requires { (height ≡ length (table_in (decode table.now)).rows) × (length tasks ≡ 16) }
    ensures { filled_to result out.new ≡ put_all_of (filled_to at out.old) (row_lines tasks 0 (table_in (decode table.now)).rows) }
{
    let mut end = at;
    let mut here = table::read::first_row();
    for k in 0..height {
        let Some((row, next)) = table::read::next_row(table, here) else {
            return end;
        };
        here = next;
        end = put_row(out, end, k, row, tasks);
    }
    end
}

// `name` and a size.
fn put_size(out: &mut [u8], at: usize, name: &[u8], size: u16) -> usize
    ensures { filled_to result out.new ≡ put_all_of (filled_to at out.old) (name.now ++ decimal_of size) }
{
    let named = text::put_all(out, at, name);
    text::put_number(out, named, size as u32)
}

fn put_head(out: &mut [u8], sizes: Sizes) -> usize
    ensures { filled_to result out.new ≡ put_all_of (filled_to 0 out.old) (head_line sizes.f sizes.h sizes.height) }
{
    let frame = put_size(out, 0, b"frame ", sizes.f);
    let cycle = put_size(out, frame, b" cycle ", sizes.h);
    let rows = put_size(out, cycle, b" rows ", sizes.height);
    text::put(out, rows, b'\n')
}

// The lines of a table, with C as the request has it; where table or request cannot be read, `out` is left as it was.
pub(super) fn put_table(out: &mut [u8], request: &[u8], table: &[u8]) -> Result<usize, Refusal>
    ensures { TablePut result (reading request.now) (decode table.now) out.old out.new }
{
    let sizes = table::read::sizes(table)?;
    let read = request::read(request)?;
    let head = put_head(out, sizes);
    Ok(put_rows(out, head, table, sizes.height, read.tasks))
}
