// The exports of bus::timeline.
ghost use Rattle.std.specs.Prelude.{◌≡◌};
ghost use Rattle.bus.specs.Timeline.{timeline_reply, timeline_records};

#[unsafe(no_mangle)]
pub extern "C" fn bus_timeline(request: &[u8], table: &[u8], records: &mut [u8]) -> i32
    ensures { (result ≡ timeline_reply request.now table.now records.old)
        × (records.new ≡ timeline_records request.now table.now records.old) }
{
    bus::timeline::bus_timeline(request, table, records)
}
