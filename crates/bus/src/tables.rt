// The calls on a request and its table.
ghost use Rattle.std.specs.Prelude.{◌≡◌};
ghost use Rattle.bus.specs.Plan.{plan_reply, plan_buffer, plan_tries};
ghost use Rattle.bus.specs.Decide.{decide_reply, decide_buffer};
ghost use Rattle.bus.specs.Rewrite.{rewrite_reply, rewrite_buffer};
ghost use Rattle.bus.specs.OneOff.{one_off_reply};
ghost use Rattle.bus.specs.Check.{check_reply};

use crate::reply::{BAD_BYTES, length, refused, value};
use lent::numbers::write_number;

// The table of the request's chosen plan, written into `out`, if the search needs no more tries than allowed: its length, or 1 to 11, 17 or 23 negated. The
// tries made stand in the first 8 bytes of `tries`, whatever the answer is; but for 99 negated, which comes first and leaves all as it was.
pub fn bus_plan(request: &[u8], allowance: u64, out: &mut [u8], tries: &mut [u8]) -> i32
    ensures { (result ≡ plan_reply allowance request.now out.old tries.old)
        × (out.new ≡ plan_buffer allowance request.now out.old tries.old)
        × (tries.new ≡ plan_tries allowance request.now out.old tries.old) }
{
    if tries.len() < 8 {
        return BAD_BYTES;
    }
    let searched = planner::plan(request, allowance, out);
    write_number(tries, searched.tries);
    length(searched.outcome)
}

// The table of the request's chosen plan, written into `out`, however long the search takes: its length, or 1 to 11 or 17 negated.
pub fn bus_decide(request: &[u8], out: &mut [u8]) -> i32
    ensures { (result ≡ decide_reply request.now out.old)
        × (out.new ≡ decide_buffer request.now out.old) }
{
    length(decider::decide(request, out))
}

// Whether the table describes a plan of the request: 0, or 1 to 8, 17 or 12 to 14 negated.
pub fn bus_check(request: &[u8], table: &[u8]) -> i32
    ensures { result ≡ check_reply request.now table.now }
{
    match checker::check(request, table) {
        Ok(()) => 0,
        Err(refusal) => refused(refusal),
    }
}

// The table of the plan that is read from a table, written into `out`: its length, or 1 to 8, 17, 12 to 14 or 11 negated.
pub fn bus_rewrite(request: &[u8], table: &[u8], out: &mut [u8]) -> i32
    ensures { (result ≡ rewrite_reply request.now table.now out.old)
        × (out.new ≡ rewrite_buffer request.now table.now out.old) }
{
    length(rewriter::rewrite(request, table, out))
}

// The earliest frame, counted from time 0, with time for a transfer of `length` ticks between the ticks `from` and `until`: its number, or 1 to 8, 17,
// 12 to 14, 21 or 22 negated.
pub fn bus_one_off(request: &[u8], table: &[u8], length: u32, from: u32, until: u32) -> i32
    ensures { result ≡ one_off_reply length from until request.now table.now }
{
    match one_off::one_off(request, table, length, from, until) {
        Ok(frame) => value(usize::from(frame)),
        Err(refusal) => refused(refusal),
    }
}
