// The calls of the bus timer. It stands in bytes that the caller lends: 72, of which the first 64 are the dispatcher's state.
ghost use Rattle.std.specs.Prelude.{◌≡◌};
ghost use Rattle.bus.specs.Timer.{timer_fresh_reply, timer_fresh_bytes, timer_read_reply, timer_write_reply, timer_write_bytes};
ghost use Rattle.bus.specs.Timer.{timer_event_reply, timer_event_bytes, timer_serve_reply, timer_serve_bytes, timer_serve_entries};
ghost use Rattle.bus.specs.Timer.{timer_report_reply, timer_report_bytes, timer_line_reply};

use crate::reply::{BAD_BYTES, refused, value};
use lent::entries::write_pairs;
use lent::timer_bytes::{is_timer, read_timer, write_timer};
use lent::words::clear;

// The fresh timer, and 0 in every other byte of the 72: 0, or 99 negated.
pub fn bus_timer_fresh(timer: &mut [u8]) -> i32
    ensures { (result ≡ timer_fresh_reply timer.old) × (timer.new ≡ timer_fresh_bytes timer.old) }
{
    if timer.len() < 72 {
        return BAD_BYTES;
    }
    clear(timer, 72);
    write_timer(timer, timer::fresh());
    0
}

// The byte at an address: or 99 or 29 negated.
pub fn bus_timer_read(address: u8, timer: &[u8]) -> i32
    ensures { result ≡ timer_read_reply address timer.now }
{
    if !is_timer(timer) {
        return BAD_BYTES;
    }
    let old = read_timer(timer);
    match timer::read(address, old) {
        Ok(value) => i32::from(value),
        Err(refusal) => refused(refusal),
    }
}

// A byte written to an address, and the timer after it: 0, or 99 or 29 negated and nothing changed.
pub fn bus_timer_write(address: u8, value: u8, timer: &mut [u8]) -> i32
    ensures { (result ≡ timer_write_reply address value timer.old) × (timer.new ≡ timer_write_bytes address value timer.old) }
{
    if !is_timer(timer) {
        return BAD_BYTES;
    }
    let old = read_timer(timer);
    match timer::write(address, value, old) {
        Ok(after) => {
            write_timer(timer, after);
            0
        }
        Err(refusal) => refused(refusal),
    }
}

// A timer event, and the timer after it: 0, or 99 negated and nothing changed.
pub fn bus_timer_event(timer: &mut [u8]) -> i32
    ensures { (result ≡ timer_event_reply timer.old) × (timer.new ≡ timer_event_bytes timer.old) }
{
    if !is_timer(timer) {
        return BAD_BYTES;
    }
    let old = read_timer(timer);
    let after = timer::event(old);
    write_timer(timer, after);
    0
}

// The entries of the frame that is due, and the timer after it: their number, or 99, 12 or 15 negated and nothing changed. With none due 0, and nothing
// changed.
pub fn bus_timer_serve(table: &[u8], timer: &mut [u8], entries: &mut [u8]) -> i32
    ensures { (result ≡ timer_serve_reply table.now timer.old entries.old)
        × (timer.new ≡ timer_serve_bytes table.now timer.old entries.old)
        × (entries.new ≡ timer_serve_entries table.now timer.old entries.old) }
{
    if !is_timer(timer) || entries.len() < 32 {
        return BAD_BYTES;
    }
    let old = read_timer(timer);
    if !old.status.due {
        return 0;
    }
    match timer::serve(table, old) {
        Ok(frame) => {
            write_pairs(entries, frame.tasks, frame.jobs);
            write_timer(timer, frame.timer);
            value(frame.count)
        }
        Err(refusal) => refused(refusal),
    }
}

// The ticks that a task used, and the timer after the report: 0, or 99, 1 to 6, 17 or 16 negated and nothing changed.
pub fn bus_timer_report(request: &[u8], task: u8, ticks: u32, timer: &mut [u8]) -> i32
    ensures { (result ≡ timer_report_reply request.now task ticks timer.old)
        × (timer.new ≡ timer_report_bytes request.now task ticks timer.old) }
{
    if !is_timer(timer) {
        return BAD_BYTES;
    }
    let old = read_timer(timer);
    match timer::report(request, task, ticks, old) {
        Ok(after) => {
            write_timer(timer, after);
            0
        }
        Err(refusal) => refused(refusal),
    }
}

// The interrupt line: 1 where it is on, else 0; or 99 negated.
pub fn bus_timer_line(timer: &[u8]) -> i32
    ensures { result ≡ timer_line_reply timer.now }
{
    if !is_timer(timer) {
        return BAD_BYTES;
    }
    i32::from(timer::line(read_timer(timer)))
}
