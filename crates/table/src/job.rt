// A job byte: bits 0 to 6 the job, bit 7 carry.
ghost use Rattle.std.specs.Prelude.{◌≡◌, ◌%◌};
ghost use Rattle.table.specs.Table.{number_in, carried_in, job_bits};

// The job.
pub fn number(byte: u8) -> u8
    ensures { result ≡ number_in byte }
{
    byte % 128
}

// Whether it is carried.
pub fn is_carried(byte: u8) -> bool
    ensures { result ≡ carried_in byte }
{
    128 <= byte
}

// The byte of a job: bits 0 to 6 of its number, and the carry.
pub fn byte(number: u8, carried: bool) -> u8
    ensures { result ≡ job_bits (number % 128) carried }
{
    let low = number % 128;
    if carried { low + 128 } else { low }
}
