// The exports of bus::requests.
ghost use Rattle.std.specs.Prelude.{◌≡◌};
ghost use Rattle.bus.specs.Join.{join_reply, join_buffer};
ghost use Rattle.bus.specs.Cut.{cut_reply, cut_buffer};
ghost use Rattle.bus.specs.Phases.{phases_reply, phases_counts};

#[unsafe(no_mangle)]
pub extern "C" fn bus_join(first: &[u8], second: &[u8], out: &mut [u8]) -> i32
    ensures { (result ≡ join_reply first.now second.now out.old)
        × (out.new ≡ join_buffer first.now second.now out.old) }
{
    bus::requests::bus_join(first, second, out)
}

#[unsafe(no_mangle)]
pub extern "C" fn bus_cut(request: &[u8], task: u8, first: u16, out: &mut [u8]) -> i32
    ensures { (result ≡ cut_reply request.now task first out.old)
        × (out.new ≡ cut_buffer request.now task first out.old) }
{
    bus::requests::bus_cut(request, task, first, out)
}

#[unsafe(no_mangle)]
pub extern "C" fn bus_phases(request: &[u8], task: u8, allowance: u64, counts: &mut [u8]) -> i32
    ensures { (result ≡ phases_reply allowance request.now task counts.old)
        × (counts.new ≡ phases_counts allowance request.now task counts.old) }
{
    bus::requests::bus_phases(request, task, allowance, counts)
}
