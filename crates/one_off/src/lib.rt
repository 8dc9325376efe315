#![tactic(auto)]
// Time for a one-off transfer: the earliest frame whose row leaves enough of its length unused, with numbers 21 and 22.
ghost use Rattle.std.specs.Prelude.{◌≡◌, ◌≤◌, ◌*◌};
ghost use Rattle.table.specs.Answers.{row_ok, entries_said};
ghost use Rattle.model.specs.Slots.{slots};
ghost use Rattle.model.specs.Answers.{instance_of};
ghost use Rattle.checker.specs.ReadLaws.{Formed};
ghost use Rattle.one_off.specs.OneOff.{well_asked, one_off};
ghost use Rattle.one_off.specs.Numbered.{found_said};
ghost use Rattle.one_off.specs.Answers.{offer_answer, UsedTimes, fits_by, EarliestIn};

use cycle::Cycle;
use refusal::Refusal;
use table::{Row, Sizes};

// The used time of a row: the C + g of every entry, carried ones too. It is at most 16 numbers of 32 bits.
fn used(cycle: Cycle, row: Row) -> u64
    requires { row.count ≤ 16 }
    ensures { (result ≡ slots (instance_of cycle) (entries_said (row_ok row))) × (result ≤ 16 * 4294967295) }
{
    let tasks = cycle.tasks;
    let mut sum: u64 = 0;
    for task in &row.tasks[..row.count] {
        sum += u64::from(problem::cost(tasks, cycle.n, cycle.g, *task));
    }
    sum
}

// The used time of each row, in 256 places. The rows are read once.
fn used_times(cycle: Cycle, table: &[u8], sizes: Sizes) -> [u64; 256]
    requires { Formed table.now sizes }
    ensures { UsedTimes (instance_of cycle) table.now sizes.height result }
{
    let mut times = [0u64; 256];
    let mut here = table::read::first_row();
    for k in 0..sizes.height {
        // The table has the form, so there is a row.
        let (row, next) = table::read::next_row(table, here).unwrap();
        here = next;
        times[usize::from(k)] = used(cycle, row);
    }
    times
}

// k·f ≥ s, (k+1)·f ≤ e and enough unused time in the row for L + g.
fn fits(f: u16, g: u8, used: u64, length: u32, from: u32, until: u32, k: u16) -> bool
    requires { used ≤ 16 * 4294967295 }
    ensures { result ≡ fits_by length from until f g used k }
{
    let frame = u32::from(f);
    let start = u32::from(k) * frame;
    let taken = used + (u64::from(length) + u64::from(g));
    start >= from && start + frame <= until && taken <= u64::from(f)
}

// The earliest frame that fits, of the frames of two cycles; or 22.
fn earliest(
    cycle: Cycle,
    table: &[u8],
    sizes: Sizes,
    length: u32,
    from: u32,
    until: u32,
) -> Result<u16, Refusal>
    requires { Formed table.now sizes }
    ensures { EarliestIn length from until (instance_of cycle) table.now (found_said result) }
{
    let times = used_times(cycle, table, sizes);
    for k in 0..2 * sizes.height {
        let row = usize::from(k % sizes.height);
        if fits(sizes.f, cycle.g, times[row], length, from, until, k) {
            return Ok(k);
        }
    }
    Err(Refusal::NoFrameFits)
}

// Not: L is 0, s > e or e > 2H.
fn well_asked(h: u16, length: u32, from: u32, until: u32) -> bool
    ensures { result ≡ well_asked length from until h }
{
    length >= 1 && from <= until && until <= 2 * u32::from(h)
}

// The earliest frame, counted from time 0, with time for a transfer of `length` ticks between the ticks `from` and `until`; or the check's refusal, 21 or 22.
pub fn one_off(
    request: &[u8],
    table: &[u8],
    length: u32,
    from: u32,
    until: u32,
) -> Result<u16, Refusal>
    ensures { found_said result ≡ offer_answer (one_off length from until request.now table.now) }
{
    let read = checker::read_plan(request, table)?;
    read.plan?;
    let cycle = read.cycle;
    if !well_asked(cycle.h, length, from, until) {
        return Err(Refusal::WrongSpan);
    }
    let sizes = table::read::sizes(table)?;
    earliest(cycle, table, sizes, length, from, until)
}
