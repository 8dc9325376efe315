// The exports of bus::heater.
ghost use Rattle.std.specs.Prelude.{◌≡◌};
ghost use Rattle.bus.specs.Heater.{heater_fresh_reply, heater_fresh_bytes, losses_in, heater_reply, heater_after, heater_entries};

#[unsafe(no_mangle)]
pub extern "C" fn bus_heater_fresh(heater: &mut [u8]) -> i32
    ensures { (result ≡ heater_fresh_reply heater.old) × (heater.new ≡ heater_fresh_bytes heater.old) }
{
    bus::heater::bus_heater_fresh(heater)
}

#[unsafe(no_mangle)]
pub extern "C" fn bus_heater_serve(
    request: &[u8],
    table: &[u8],
    a: u8,
    b: u8,
    lost: u8,
    heater: &mut [u8],
    entries: &mut [u8],
) -> i32
    ensures { (result ≡ heater_reply request.now table.now a b lost heater.old entries.old)
        × (heater.new ≡ heater_after request.now table.now a b lost heater.old entries.old)
        × (entries.new ≡ heater_entries request.now table.now a b lost heater.old entries.old) }
{
    bus::heater::bus_heater_serve(request, table, a, b, lost, heater, entries)
}
