// The calls of the dispatcher. Its state stands in bytes that the caller lends.
ghost use Rattle.std.specs.Prelude.{◌≡◌};
ghost use Rattle.bus.specs.Dispatch.{fresh_reply, fresh_bytes, frame_reply, frame_state, frame_entries, report_reply, report_state};

use crate::reply::{BAD_BYTES, refused, value};
use lent::entries::write_pairs;
use lent::state::{is_state, read_state, write_state};
use lent::words::clear;

// The fresh state, and 0 in the 29 bytes behind it: 0, or 99 negated.
pub fn bus_fresh(state: &mut [u8]) -> i32
    ensures { (result ≡ fresh_reply state.old) × (state.new ≡ fresh_bytes state.old) }
{
    if state.len() < 64 {
        return BAD_BYTES;
    }
    clear(state, 64);
    write_state(state, dispatcher::fresh());
    0
}

// The entries to serve in the next frame, and the state after it: their number, or 99, 12 or 15 negated and nothing changed.
pub fn bus_next_frame(table: &[u8], state: &mut [u8], entries: &mut [u8]) -> i32
    ensures { (result ≡ frame_reply table.now state.old entries.old)
        × (state.new ≡ frame_state table.now state.old entries.old)
        × (entries.new ≡ frame_entries table.now state.old entries.old) }
{
    if !is_state(state) || entries.len() < 32 {
        return BAD_BYTES;
    }
    let old = read_state(state);
    match dispatcher::next_frame(table, old) {
        Ok(frame) => {
            write_pairs(entries, frame.tasks, frame.jobs);
            write_state(state, frame.state);
            value(frame.count)
        }
        Err(refusal) => refused(refusal),
    }
}

// The ticks that a task used, and the state after the report: 0, or 99, 1 to 6, 17 or 16 negated and nothing changed.
pub fn bus_report(request: &[u8], task: u8, ticks: u32, state: &mut [u8]) -> i32
    ensures { (result ≡ report_reply request.now task ticks state.old) × (state.new ≡ report_state request.now task ticks state.old) }
{
    if !is_state(state) {
        return BAD_BYTES;
    }
    let old = read_state(state);
    match dispatcher::report(request, task, ticks, old) {
        Ok(reported) => {
            write_state(state, reported.state);
            0
        }
        Err(refusal) => refused(refusal),
    }
}
