#![tactic(auto)]
// Runs the reading of requests on byte strings of every kind that 1 to 8 and 17 refuse, and prints the number that each gets
// (0: none). The file `stdout` beside src/ has the numbers that they must get.
fn show<R: Print + Eprint + AllocGlobal>(rt: &R, name: &str, request: &[u8]) {
    let number = match cycle::read(request) {
        Ok(_) => 0,
        Err(refusal) => refusal.number(),
    };
    streams::was_printed(rt, println!(rt; "{number} {name}"));
}

// 1 and 2: the count of tasks, and bytes that end too early.
fn show_counts<R: Print + Eprint + AllocGlobal>(rt: &R) {
    show(rt, "no bytes", b"");
    show(rt, "no task", b"\x00");
    show(rt, "17 tasks", b"\x11");
    show(rt, "a count of tasks alone", b"\x01");
    show(rt, "a task cut inside its period", b"\x01\x01\x00\x0a");
    show(
        rt,
        "a task cut before its phase, with C above D",
        b"\x01\x05\x00\x0a\x00\x02\x00",
    );
    show(
        rt,
        "no count of pairs",
        b"\x01\x01\x00\x0a\x00\x0a\x00\x00\x00",
    );
    show(
        rt,
        "a pair cut in two",
        b"\x02\x01\x00\x0a\x00\x0a\x00\x00\x00\x01\x00\x0a\x00\x0a\x00\x00\x00\x01\x00",
    );
}

// 3: the inequalities of a task.
fn show_tasks<R: Print + Eprint + AllocGlobal>(rt: &R) {
    show(rt, "C is 0", b"\x01\x00\x00\x0a\x00\x0a\x00\x00\x00\x00");
    show(rt, "C above D", b"\x01\x06\x00\x0a\x00\x05\x00\x00\x00\x00");
    show(rt, "D above T", b"\x01\x01\x00\x0a\x00\x0b\x00\x00\x00\x00");
    show(rt, "P is T", b"\x01\x01\x00\x0a\x00\x0a\x00\x0a\x00\x00");
    show(
        rt,
        "a bad task and then nothing",
        b"\x02\x00\x00\x0a\x00\x0a\x00\x00\x00",
    );
    show(
        rt,
        "C = D = T and P = T - 1",
        b"\x01\x0a\x00\x0a\x00\x0a\x00\x09\x00\x00",
    );
}

// 4 and 5: the pairs.
fn show_pairs<R: Print + Eprint + AllocGlobal>(rt: &R) {
    show(rt, "17 pairs", b"\x01\x01\x00\x0a\x00\x0a\x00\x00\x00\x11");
    show(
        rt,
        "a pair of a task with itself",
        b"\x02\x01\x00\x0a\x00\x0a\x00\x00\x00\x01\x00\x0a\x00\x0a\x00\x00\x00\x01\x00\x00",
    );
    show(
        rt,
        "a pair that falls",
        b"\x02\x01\x00\x0a\x00\x0a\x00\x00\x00\x01\x00\x0a\x00\x0a\x00\x00\x00\x01\x01\x00",
    );
    show(
        rt,
        "a pair with an unknown task",
        b"\x02\x01\x00\x0a\x00\x0a\x00\x00\x00\x01\x00\x0a\x00\x0a\x00\x00\x00\x01\x00\x02",
    );
    show(
        rt,
        "a pair of unequal periods",
        b"\x02\x01\x00\x0a\x00\x0a\x00\x00\x00\x01\x00\x14\x00\x0a\x00\x00\x00\x01\x00\x01",
    );
    show(
        rt,
        "a pair twice",
        b"\x02\x01\x00\x0a\x00\x0a\x00\x00\x00\x01\x00\x0a\x00\x0a\x00\x00\x00\x02\x00\x01\x00\x01",
    );
}

// 17 and 6: the third section and what follows it.
fn show_silent<R: Print + Eprint + AllocGlobal>(rt: &R) {
    show(
        rt,
        "a third section of no byte",
        b"\x01\x01\x00\x0a\x00\x0a\x00\x00\x00\x00\x00",
    );
    show(
        rt,
        "15 silent ticks",
        b"\x01\x01\x00\x0a\x00\x0a\x00\x00\x00\x00\x01\x0f",
    );
    show(
        rt,
        "a third section that ends at its count",
        b"\x01\x01\x00\x0a\x00\x0a\x00\x00\x00\x00\x01",
    );
    show(
        rt,
        "a third section of two bytes",
        b"\x01\x01\x00\x0a\x00\x0a\x00\x00\x00\x00\x02\x00\x00",
    );
    show(
        rt,
        "a count of 255 alone, behind a pair",
        b"\x02\x01\x00\x0a\x00\x0a\x00\x00\x00\x01\x00\x0a\x00\x0a\x00\x00\x00\x01\x00\x01\xff",
    );
    show(
        rt,
        "16 silent ticks",
        b"\x01\x01\x00\x0a\x00\x0a\x00\x00\x00\x00\x01\x10",
    );
    show(
        rt,
        "16 silent ticks and a byte behind them",
        b"\x01\x01\x00\x0a\x00\x0a\x00\x00\x00\x00\x01\x10\x00",
    );
    show(
        rt,
        "a byte behind a third section of no byte",
        b"\x01\x01\x00\x0a\x00\x0a\x00\x00\x00\x00\x00\x00",
    );
    show(
        rt,
        "a byte behind 15 silent ticks",
        b"\x01\x01\x00\x0a\x00\x0a\x00\x00\x00\x00\x01\x0f\x00",
    );
    show(
        rt,
        "a byte behind a pair and no silent ticks",
        b"\x02\x01\x00\x0a\x00\x0a\x00\x00\x00\x01\x00\x0a\x00\x0a\x00\x00\x00\x01\x00\x01\x01\x00\x00",
    );
}

// 7 and 8: the cycle.
fn show_cycles<R: Print + Eprint + AllocGlobal>(rt: &R) {
    show(
        rt,
        "H is 10000",
        b"\x01\x01\x00\x10\x27\x10\x27\x00\x00\x00",
    );
    show(
        rt,
        "H is 10001",
        b"\x01\x01\x00\x11\x27\x10\x27\x00\x00\x00",
    );
    show(
        rt,
        "H of two periods above 10000",
        b"\x02\x01\x00\x65\x00\x65\x00\x00\x00\x01\x00\x64\x00\x64\x00\x00\x00\x00",
    );
    show(
        rt,
        "H far above 65535",
        b"\x03\x01\x00\xff\xff\xff\xff\x00\x00\x01\x00\xfe\xff\xfe\xff\x00\x00\x01\x00\xfd\xff\xfd\xff\x00\x00\x00",
    );
    show(
        rt,
        "128 jobs",
        b"\x02\x01\x00\x01\x00\x01\x00\x00\x00\x01\x00\x7f\x00\x7f\x00\x00\x00\x00",
    );
    show(
        rt,
        "129 jobs",
        b"\x02\x01\x00\x01\x00\x01\x00\x00\x00\x01\x00\x80\x00\x80\x00\x00\x00\x00",
    );
}

fn main(rt: HostRuntime) {
    show_counts(&rt);
    show_tasks(&rt);
    show_pairs(&rt);
    show_silent(&rt);
    show_cycles(&rt);
}
