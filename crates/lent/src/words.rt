// Numbers of two bytes in lent bytes, low byte first; and lent bytes cleared.
ghost use Rattle.std.specs.Prelude.{◌≡◌, ◌+◌, ◌*◌, ◌≤◌, ◌++◌, length, take, drop};
ghost use Rattle.std.proofs.lemmas.List.Edits.{sets};
ghost use Rattle.cursor.specs.Fields.{word_bytes};
ghost use Rattle.lent.specs.Words.{u16_of, words_from, words_bytes, zeros};

pub(super) fn word(low: u8, high: u8) -> u16
    ensures { result ≡ u16_of low high }
{
    (low as u16) + (high as u16) * 256
}

// A u16 into two bytes that are there: `cursor::put_word` without its tests, which would take a seventh of the time of `bus_next_frame`.
pub(super) fn store_word(bytes: &mut [u8], at: usize, w: u16)
    requires { at + 2 ≤ length bytes.old }
    ensures { bytes.new ≡ sets bytes.old at (word_bytes w) }
{
    bytes[at] = (w % 256) as u8;
    bytes[at + 1] = (w / 256) as u8;
}

// N words one behind the other, the first in bytes `at` and `at` + 1.
pub(super) fn words<const N: usize>(bytes: &[u8], at: usize) -> [u16; N]
    requires { at + 2 * N ≤ length bytes.now }
    ensures { result ≡ words_from bytes.now at N 0 }
{
    let mut words = [0u16; N];
    for i in 0..N {
        words[i] = word(bytes[at + 2 * i], bytes[at + 1 + 2 * i]);
    }
    words
}

// The words one behind the other, from byte `at` on; the bytes before and behind them are left alone.
pub(super) fn store_words(bytes: &mut [u8], at: usize, words: &[u16])
    requires { at + 2 * length words.now ≤ length bytes.old }
    ensures { bytes.new ≡ take at bytes.old ++ words_bytes words.now (length words.now) 0 ++ drop (at + 2 * length words.now) bytes.old }
{
    for (i, &word) in words.iter().enumerate() {
        store_word(bytes, at + 2 * i, word);
    }
}

// The first n bytes are 0; those behind them are left alone.
pub fn clear(bytes: &mut [u8], n: usize)
    requires { n ≤ length bytes.old }
    ensures { bytes.new ≡ zeros n ++ drop n bytes.old }
{
    bytes[..n].fill(0);
}
