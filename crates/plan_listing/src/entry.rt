// The name of an entry, as every listing has it.
ghost use Rattle.std.specs.Prelude.{◌≡◌};
ghost use Rattle.table.specs.Table.{entry_of};
ghost use Rattle.text.specs.Text.{filled_to, put_all_of};
ghost use Rattle.plan_listing.specs.Listing.{named};

// A space, and the entry's task and job as task.job.
pub fn put_name(out: &mut [u8], at: usize, task: u8, job: u8) -> usize
    ensures { filled_to result out.new ≡ put_all_of (filled_to at out.old) (named (entry_of task job)) }
{
    let space = text::put(out, at, b' ');
    let number = text::put_number(out, space, task as u32);
    let dot = text::put(out, number, b'.');
    text::put_number(out, dot, table::job::number(job) as u32)
}
