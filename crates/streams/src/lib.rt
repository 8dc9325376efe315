#![tactic(auto)]
// What a program reads and prints: what cannot be read or written is named on standard error, with the system's reason.
ghost use Rattle.std.specs.Prelude.{◌≡◌};
ghost use Rattle.std.specs.Result.{is_ok};

use std::io;
use std::io::Read;

// The system's reason in words. std writes its number behind them, as in `Is a directory (os error 21)`.
fn words(reason: &str) -> &str {
    match reason.split_once(" (os error ") {
        Some((words, _)) => words,
        None => reason,
    }
}

// Writes a line to standard error: what failed, a colon and the reason. Where that cannot be written either, nobody is left to be told.
pub fn fail<R: Eprint + AllocGlobal>(rt: &R, what: &str, error: io::Error) {
    let _ = match error.to_string(rt.alloc()) {
        Ok(reason) => eprintln!(rt; "{what}: {}", words(reason.as_str())),
        Err(_) => eprintln!(rt; "{what}: {error}"),
    };
}

// Whether the input was read. Otherwise it is named, with the reason.
pub fn was_read<R: Eprint + AllocGlobal>(rt: &R, read: io::Result<usize>, what: &str) -> bool
    ensures { result ≡ is_ok read }
{
    match read {
        Ok(_) => true,
        Err(error) => {
            fail(rt, what, error);
            false
        }
    }
}

// Whether all was written to standard output. Otherwise it says that it was not.
pub fn was_printed<R: Eprint + AllocGlobal>(rt: &R, printed: io::Result<()>) -> bool
    ensures { result ≡ is_ok printed }
{
    match printed {
        Ok(()) => true,
        Err(error) => {
            fail(rt, "cannot write to standard output", error);
            false
        }
    }
}

// Standard input to its end, but at most so many bytes; or nothing, where it cannot be read.
pub fn input<R: Input + Eprint + AllocGlobal>(rt: &R, most: u64) -> Option<Vec<u8>> {
    let mut bytes = Vec::new(rt.alloc());
    let read = rt.reader().take(most).read_to_end(&mut bytes);
    if was_read(rt, read, "cannot read standard input") {
        Some(bytes)
    } else {
        None
    }
}

// Writes all of the text to standard output and answers true, or says that it could not.
pub fn print<R: Print + Eprint + AllocGlobal>(rt: &R, text: &[u8]) -> bool {
    was_printed(rt, rt.write_all(text))
}
