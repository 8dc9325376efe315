// The exports of bus::tables.
ghost use Rattle.std.specs.Prelude.{◌≡◌};
ghost use Rattle.bus.specs.Plan.{plan_reply, plan_buffer, plan_tries};
ghost use Rattle.bus.specs.Decide.{decide_reply, decide_buffer};
ghost use Rattle.bus.specs.Rewrite.{rewrite_reply, rewrite_buffer};
ghost use Rattle.bus.specs.OneOff.{one_off_reply};
ghost use Rattle.bus.specs.Check.{check_reply};

#[unsafe(no_mangle)]
pub extern "C" fn bus_plan(request: &[u8], allowance: u64, out: &mut [u8], tries: &mut [u8]) -> i32
    ensures { (result ≡ plan_reply allowance request.now out.old tries.old)
        × (out.new ≡ plan_buffer allowance request.now out.old tries.old)
        × (tries.new ≡ plan_tries allowance request.now out.old tries.old) }
{
    bus::tables::bus_plan(request, allowance, out, tries)
}

#[unsafe(no_mangle)]
pub extern "C" fn bus_decide(request: &[u8], out: &mut [u8]) -> i32
    ensures { (result ≡ decide_reply request.now out.old)
        × (out.new ≡ decide_buffer request.now out.old) }
{
    bus::tables::bus_decide(request, out)
}

#[unsafe(no_mangle)]
pub extern "C" fn bus_check(request: &[u8], table: &[u8]) -> i32
    ensures { result ≡ check_reply request.now table.now }
{
    bus::tables::bus_check(request, table)
}

#[unsafe(no_mangle)]
pub extern "C" fn bus_rewrite(request: &[u8], table: &[u8], out: &mut [u8]) -> i32
    ensures { (result ≡ rewrite_reply request.now table.now out.old)
        × (out.new ≡ rewrite_buffer request.now table.now out.old) }
{
    bus::tables::bus_rewrite(request, table, out)
}

#[unsafe(no_mangle)]
pub extern "C" fn bus_one_off(
    request: &[u8],
    table: &[u8],
    length: u32,
    from: u32,
    until: u32,
) -> i32
    ensures { result ≡ one_off_reply length from until request.now table.now }
{
    bus::tables::bus_one_off(request, table, length, from, until)
}
