// A draft in the bytes that the caller lends: 770.
ghost use Rattle.std.specs.Prelude.{◌≡◌, ◌≤◌, length};
ghost use Rattle.lent.specs.DraftBytes.{draft_in, draft_bytes};

use crate::words::{store_word, store_words, word, words};
use draft::Draft;

// The frame of job y stands in bytes 2 + 2y and 3 + 2y, the load of row r in bytes 258 + 2r and 259 + 2r.
pub fn read_draft(draft: &[u8]) -> Draft
    requires { 770 ≤ length draft.now }
    ensures { result ≡ draft_in draft.now }
{
    let frames = words::<128>(draft, 2);
    let loads = words::<256>(draft, 258);
    Draft {
        f: word(draft[0], draft[1]),
        frames,
        loads,
    }
}

// The first 770 bytes; those behind them are left alone.
pub fn write_draft(draft: &mut [u8], new: Draft)
    requires { 770 ≤ length draft.old }
    ensures { draft.new ≡ draft_bytes new draft.old }
{
    store_word(draft, 0, new.f);
    store_words(draft, 2, &new.frames);
    store_words(draft, 258, &new.loads);
}
