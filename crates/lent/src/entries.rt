// The entries of a frame in 32 lent bytes.
ghost use Rattle.std.specs.Prelude.{◌≡◌, ◌≤◌, ◌++◌, length, drop};
ghost use Rattle.lent.specs.Entries.{entry_bytes};

// 16 pairs of a task byte and a job byte; the bytes behind them are left alone.
pub fn write_pairs(entries: &mut [u8], tasks: [u8; 16], jobs: [u8; 16])
    requires { 32 ≤ length entries.old }
    ensures { entries.new ≡ entry_bytes tasks jobs 16 0 ++ drop 32 entries.old }
{
    for i in 0..16 {
        entries[2 * i] = tasks[i];
        entries[2 * i + 1] = jobs[i];
    }
}
