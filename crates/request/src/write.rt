// Writing a request: its length is known before the first byte, and each section goes into the part of the buffer behind the one before.
ghost use Rattle.std.specs.Prelude.{◌≡◌, ◌++◌, ◌+◌, ◌*◌, ◌≤◌, min, length, drop};
ghost use Rattle.cursor.specs.Padded.{firsts};
ghost use Rattle.cursor.specs.Pieces.{Placed};
ghost use Rattle.request.specs.Request.{no_task, no_pair};
ghost use Rattle.request.specs.Encode.{task_bytes, pair_bytes, section_bytes, silent_bytes, request_bytes};
ghost use Rattle.cursor.specs.Written.{written_said, written, buffer};

use crate::{Pair, Task};
use refusal::Refusal;

fn write_task(out: &mut [u8], x: Task)
    requires { 8 ≤ length out.old }
    ensures { out.new ≡ task_bytes x ++ drop 8 out.old }
{
    cursor::put_word(out, 0, x.c);
    cursor::put_word(out, 2, x.t);
    cursor::put_word(out, 4, x.d);
    cursor::put_word(out, 6, x.p);
}

// The first section, at the front of `out`; answers the number of its bytes.
fn write_tasks(out: &mut [u8], tasks: &[Task]) -> usize
    requires { (length tasks.now ≤ 16) × (length (section_bytes task_bytes tasks.now) ≤ length out.old) }
    ensures { Placed (section_bytes task_bytes tasks.now) out.old out.new result }
{
    out[0] = tasks.len() as u8;
    let mut at: usize = 1;
    for task in tasks {
        write_task(&mut out[at..], *task);
        at += 8;
    }
    at
}

// The second section, at the front of `out`; answers the number of its bytes. It is not one function with write_tasks: a trait of records, with
// their bytes, their width and its law, and its two impls are longer than the two loops.
fn write_pairs(out: &mut [u8], pairs: &[Pair]) -> usize
    requires { (length pairs.now ≤ 16) × (length (section_bytes pair_bytes pairs.now) ≤ length out.old) }
    ensures { Placed (section_bytes pair_bytes pairs.now) out.old out.new result }
{
    out[0] = pairs.len() as u8;
    let mut at: usize = 1;
    for pair in pairs {
        out[at] = pair.a;
        out[at + 1] = pair.b;
        at += 2;
    }
    at
}

// The third section has two bytes; it is left out where g is 0.
fn silent_length(g: u8) -> usize
    ensures { result ≡ length (silent_bytes g) }
{
    if g == 0 { 0 } else { 2 }
}

// The third section, at the front of `out`; answers the number of its bytes.
fn write_silent(out: &mut [u8], g: u8) -> usize
    requires { length (silent_bytes g) ≤ length out.old }
    ensures { Placed (silent_bytes g) out.old out.new result }
{
    let width = silent_length(g);
    if width == 0 {
        return 0;
    }
    out[0] = 1;
    out[1] = g;
    width
}

// The sections, at the front of `out`: each goes into the part that begins where the last one ended. Answers the number of their bytes.
fn write_sections(out: &mut [u8], tasks: &[Task], pairs: &[Pair], g: u8) -> usize
    requires { (length tasks.now ≤ 16) × (length pairs.now ≤ 16) × (length (request_bytes tasks.now pairs.now g) ≤ length out.old) }
    ensures { Placed (request_bytes tasks.now pairs.now g) out.old out.new result }
{
    let first = write_tasks(out, tasks);
    let second = write_pairs(&mut out[first..], pairs);
    let behind = first + second;
    let third = write_silent(&mut out[behind..], g);
    behind + third
}

fn request_length(n: usize, m: usize, g: u8) -> usize
    requires { (n ≤ 16) × (m ≤ 16) }
    ensures { result ≡ 2 + 8 * n + 2 * m + length (silent_bytes g) }
{
    2 + 8 * n + 2 * m + silent_length(g)
}

// The request of the first n tasks, the first m pairs and g silent ticks; a buffer that is too short stays as it was.
pub fn write(
    tasks: [Task; 16],
    n: usize,
    pairs: [Pair; 16],
    m: usize,
    g: u8,
    out: &mut [u8],
) -> Result<usize, Refusal>
    ensures { (written_said result ≡ written (request_bytes (firsts (min n 16) no_task tasks) (firsts (min m 16) no_pair pairs) g) out.old)
        × (out.new ≡ buffer (request_bytes (firsts (min n 16) no_task tasks) (firsts (min m 16) no_pair pairs) g) out.old) }
{
    let count = n.min(16);
    let links = m.min(16);
    if out.len() < request_length(count, links, g) {
        return Err(Refusal::ShortBuffer);
    }
    Ok(write_sections(out, &tasks[..count], &pairs[..links], g))
}
