// The exports of bus::dispatch.
ghost use Rattle.std.specs.Prelude.{◌≡◌};
ghost use Rattle.bus.specs.Dispatch.{fresh_reply, fresh_bytes, frame_reply, frame_state, frame_entries, report_reply, report_state};

#[unsafe(no_mangle)]
pub extern "C" fn bus_fresh(state: &mut [u8]) -> i32
    ensures { (result ≡ fresh_reply state.old) × (state.new ≡ fresh_bytes state.old) }
{
    bus::dispatch::bus_fresh(state)
}

#[unsafe(no_mangle)]
pub extern "C" fn bus_next_frame(table: &[u8], state: &mut [u8], entries: &mut [u8]) -> i32
    ensures { (result ≡ frame_reply table.now state.old entries.old)
        × (state.new ≡ frame_state table.now state.old entries.old)
        × (entries.new ≡ frame_entries table.now state.old entries.old) }
{
    bus::dispatch::bus_next_frame(table, state, entries)
}

#[unsafe(no_mangle)]
pub extern "C" fn bus_report(request: &[u8], task: u8, ticks: u32, state: &mut [u8]) -> i32
    ensures { (result ≡ report_reply request.now task ticks state.old) × (state.new ≡ report_state request.now task ticks state.old) }
{
    bus::dispatch::bus_report(request, task, ticks, state)
}
