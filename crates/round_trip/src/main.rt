#![tactic(auto)]
// Plans the requests of the bench sheet that have a plan, checks each table and rewrites it, and prints what the check gives (0: accepted)
// and whether the bytes are the same. The file `stdout` beside src/ has what it must print.
use refusal::Refusal;

// Whether the table of the request's plan, which the check must accept, is written again byte for byte.
fn same(request: &[u8]) -> Result<bool, Refusal> {
    let mut table = [0u8; 1024];
    let mut again = [0u8; 1024];
    let length = planner::plan(request, planner::PROGRAM_TRIES, &mut table).outcome?;
    let table = &table[..length.min(1024)];
    checker::check(request, table)?;
    let length = rewriter::rewrite(request, table, &mut again)?;
    Ok(table == &again[..length.min(1024)])
}

fn show<R: Print + Eprint + AllocGlobal>(rt: &R, name: &str, request: &[u8]) {
    let (number, bytes) = match same(request) {
        Ok(true) => (0, "same"),
        Ok(false) => (0, "other"),
        Err(refusal) => (refusal.number(), "other"),
    };
    streams::was_printed(rt, println!(rt; "{name} {number} {bytes}"));
}

fn main(rt: HostRuntime) {
    show(
        &rt,
        "P1",
        b"\x03\x05\x00\x14\x00\x14\x00\x00\x00\x05\x00\x14\x00\x14\x00\x00\x00\x0a\x00\x28\x00\x28\x00\x00\x00\x00",
    );
    show(
        &rt,
        "P3",
        b"\x04\x02\x00\x06\x00\x06\x00\x00\x00\x02\x00\x08\x00\x08\x00\x00\x00\x04\x00\x18\x00\x18\x00\x00\x00\x04\x00\x18\x00\x18\x00\x00\x00\x01\x02\x03",
    );
    show(
        &rt,
        "P6",
        b"\x03\x0e\x00\x3c\x00\x28\x00\x0a\x00\x0f\x00\x3c\x00\x2d\x00\x0f\x00\x05\x00\x14\x00\x14\x00\x00\x00\x00",
    );
    show(&rt, "P7", b"\x01\x02\x00\x0a\x00\x09\x00\x06\x00\x00");
    show(&rt, "P8", b"\x01\x01\x00\x0a\x00\x05\x00\x02\x00\x00");
    show(&rt, "P9", b"\x01\x01\x00\x00\x01\x01\x00\x00\x00\x00");
    show(&rt, "P12", b"\x01\x01\x00\x10\x27\x10\x27\x00\x00\x00");
}
