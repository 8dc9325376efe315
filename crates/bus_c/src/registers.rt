// The exports of bus::registers.
ghost use Rattle.std.specs.Prelude.{◌≡◌};
ghost use Rattle.bus.specs.Timer.{timer_fresh_reply, timer_fresh_bytes, timer_read_reply, timer_write_reply, timer_write_bytes};
ghost use Rattle.bus.specs.Timer.{timer_event_reply, timer_event_bytes, timer_serve_reply, timer_serve_bytes, timer_serve_entries};
ghost use Rattle.bus.specs.Timer.{timer_report_reply, timer_report_bytes, timer_line_reply};

#[unsafe(no_mangle)]
pub extern "C" fn bus_timer_fresh(timer: &mut [u8]) -> i32
    ensures { (result ≡ timer_fresh_reply timer.old) × (timer.new ≡ timer_fresh_bytes timer.old) }
{
    bus::registers::bus_timer_fresh(timer)
}

#[unsafe(no_mangle)]
pub extern "C" fn bus_timer_read(address: u8, timer: &[u8]) -> i32
    ensures { result ≡ timer_read_reply address timer.now }
{
    bus::registers::bus_timer_read(address, timer)
}

#[unsafe(no_mangle)]
pub extern "C" fn bus_timer_write(address: u8, value: u8, timer: &mut [u8]) -> i32
    ensures { (result ≡ timer_write_reply address value timer.old) × (timer.new ≡ timer_write_bytes address value timer.old) }
{
    bus::registers::bus_timer_write(address, value, timer)
}

#[unsafe(no_mangle)]
pub extern "C" fn bus_timer_event(timer: &mut [u8]) -> i32
    ensures { (result ≡ timer_event_reply timer.old) × (timer.new ≡ timer_event_bytes timer.old) }
{
    bus::registers::bus_timer_event(timer)
}

#[unsafe(no_mangle)]
pub extern "C" fn bus_timer_serve(table: &[u8], timer: &mut [u8], entries: &mut [u8]) -> i32
    ensures { (result ≡ timer_serve_reply table.now timer.old entries.old)
        × (timer.new ≡ timer_serve_bytes table.now timer.old entries.old)
        × (entries.new ≡ timer_serve_entries table.now timer.old entries.old) }
{
    bus::registers::bus_timer_serve(table, timer, entries)
}

#[unsafe(no_mangle)]
pub extern "C" fn bus_timer_report(request: &[u8], task: u8, ticks: u32, timer: &mut [u8]) -> i32
    ensures { (result ≡ timer_report_reply request.now task ticks timer.old)
        × (timer.new ≡ timer_report_bytes request.now task ticks timer.old) }
{
    bus::registers::bus_timer_report(request, task, ticks, timer)
}

#[unsafe(no_mangle)]
pub extern "C" fn bus_timer_line(timer: &[u8]) -> i32
    ensures { result ≡ timer_line_reply timer.now }
{
    bus::registers::bus_timer_line(timer)
}
