// The records of a timeline in the bytes that the caller lends: 8 for each.
ghost use Rattle.std.specs.Prelude.{◌≡◌, ◌*◌, ◌≤◌, length, drop};
ghost use mathlib.Core.List.{◌++◌, flat_map};
ghost use Rattle.job_records.specs.Known.{records_known};
ghost use Rattle.lent.specs.Records.{record_bytes};

use job_records::{JobRecord, JobsKnown};

// The first 8 bytes; those behind them are left alone.
fn write_record(out: &mut [u8], job: JobRecord)
    requires { 8 ≤ length out.old }
    ensures { out.new ≡ record_bytes job ++ drop 8 out.old }
{
    out[0] = job.task;
    out[1] = job.job;
    cursor::put_word(out, 2, job.release);
    cursor::put_word(out, 4, job.due);
    cursor::put_word(out, 6, job.frame);
}

// A record for each job, one behind the other; the bytes behind them are left alone.
pub fn write_records(out: &mut [u8], known: JobsKnown)
    requires { (known.count ≤ 128) × (8 * known.count ≤ length out.old) }
    ensures { out.new ≡ flat_map record_bytes (records_known known) ++ drop (8 * known.count) out.old }
{
    for y in 0..known.count {
        write_record(&mut out[8 * y..], job_records::record_at(known, y));
    }
}
