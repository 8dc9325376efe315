// The count of tries, and the four counts of a task's phases, each in 8 lent bytes.
ghost use Rattle.std.specs.Prelude.{◌≡◌, ◌≤◌, ◌++◌, length, drop};
ghost use Rattle.phases.specs.Numbered.{counts_ok};
ghost use Rattle.lent.specs.Numbers.{low_first, counts_bytes};

use phases::PhaseCounts;

// The first 8 bytes get the number, low byte first; those behind them are left alone.
pub fn write_number(out: &mut [u8], number: u64)
    requires { 8 ≤ length out.old }
    ensures { out.new ≡ low_first 8 number ++ drop 8 out.old }
{
    out[..8].copy_from_slice(&number.to_le_bytes());
}

// The first 8 bytes get the four counts; those behind them are left alone.
pub fn write_phases(counts: &mut [u8], found: PhaseCounts)
    requires { 8 ≤ length counts.old }
    ensures { counts.new ≡ counts_bytes (counts_ok found) ++ drop 8 counts.old }
{
    cursor::put_word(counts, 0, found.tables);
    cursor::put_word(counts, 2, found.nines);
    cursor::put_word(counts, 4, found.tens);
    cursor::put_word(counts, 6, found.ended);
}
