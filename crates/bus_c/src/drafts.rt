// The exports of bus::drafts.
ghost use Rattle.std.specs.Prelude.{◌≡◌, ◌≤◌, length};
ghost use Rattle.bus.specs.Drafts.{drafted_reply, drafted_bytes, start_reply, start_bytes, lift_reply, lift_bytes, put_reply, put_bytes, write_reply, write_buffer};

#[unsafe(no_mangle)]
pub extern "C" fn bus_draft_start(request: &[u8], table: &[u8], lent: &mut [u8]) -> i32
    ensures { (result ≡ start_reply request.now table.now lent.old)
        × (lent.new ≡ start_bytes request.now table.now lent.old) }
{
    bus::drafts::bus_draft_start(request, table, lent)
}

#[unsafe(no_mangle)]
pub extern "C" fn bus_draft_lift(request: &[u8], job: u8, lent: &mut [u8]) -> i32
    ensures { (result ≡ lift_reply request.now job lent.old) × (lent.new ≡ lift_bytes request.now job lent.old) }
{
    bus::drafts::bus_draft_lift(request, job, lent)
}

#[unsafe(no_mangle)]
pub extern "C" fn bus_draft_put(request: &[u8], job: u8, frame: u16, lent: &mut [u8]) -> i32
    ensures { (result ≡ put_reply request.now job frame lent.old)
        × (lent.new ≡ put_bytes request.now job frame lent.old) }
{
    bus::drafts::bus_draft_put(request, job, frame, lent)
}

#[unsafe(no_mangle)]
pub extern "C" fn bus_draft_write(request: &[u8], lent: &[u8], out: &mut [u8]) -> i32
    ensures { (result ≡ write_reply request.now lent.now out.old)
        × (out.new ≡ write_buffer request.now lent.now out.old) }
{
    bus::drafts::bus_draft_write(request, lent, out)
}
