// The memory of the sweep: states that failed, each a row and the flags as two words. A state of the same row whose flags are all among those of
// a failed one fails too. `marks` has one past the row at each of 5,120 places, or 0; `words` has the low words, then the high ones. A state stands
// at one of the first 4,096 places by its hash, and at one of the four places of its row. Only `marks` is cleared for a new sweep.
ghost use Rattle.std.specs.Prelude.{◌≡◌, true, false, ◌++◌, ◌≤◌, ◌<◌, length, get_or, set};
ghost use Rattle.exact.specs.Words.{word_at};
ghost use Rattle.sweep.specs.Memo.{Covers, stored, Knows, Noted};

// The word of the flags from place a on, where job i gets a flag.
pub(super) fn with_flag(flags: &[bool; 128], i: usize, w: u64, a: usize) -> u64
    requires { (i < 128) × (length flags.now ≡ 128) × (get_or flags.now i false ≡ false) × (w ≡ word_at flags.now a) }
    ensures { result ≡ word_at (set flags.now i true) a }
{
    if i < a || i - a >= 64 {
        return w;
    }
    w + (1u64 << (i - a))
}

// The middle of a sum of products: words that are near each other come far apart.
fn spread(x: u64) -> u64
    ensures { result < 68719476736 }
{
    (x % 4294967296 * 1640531527 + x / 4294967296 * 2246822519) / 268435456
}

// Where the state stands by its hash: any number below 4096 will do.
fn slot(p: u16, low: u64, high: u64) -> usize
    ensures { result < 4096 }
{
    let h = spread(low) + 3 * spread(high) + 97 * (p as u64);
    (h % 4096) as usize
}

// Where the four places of row p begin, from 4096 on.
fn row_slot(p: u16) -> usize
    ensures { result < 5117 }
{
    4096 + 4 * ((p % 256) as usize)
}

// A place of row p: one that is free, or one of the four by the hash.
fn free_slot(marks: &[u16; 5120], p: u16, h: usize) -> usize
    ensures { result < 5120 }
{
    let s = row_slot(p);
    let free = marks[s..s + 4].iter().position(|&mark| mark == 0);
    s + free.unwrap_or(h % 4)
}

// Place s has a state of row p whose flags are these and perhaps more.
fn covers(marks: &[u16; 5120], words: &[u64], p: u16, low: u64, high: u64, s: usize) -> bool
    requires { (p < 65535) × (s < 5120) × (length marks.now ≡ 5120) × (length words.now ≡ 10240) }
    ensures { result ≡ true → Covers (marks.now ++ words.now) p low high s }
{
    marks[s] == p + 1 && low & words[s] == low && high & words[5120 + s] == high
}

// The state of row p is known to fail.
pub(super) fn known(marks: &[u16; 5120], words: &[u64], p: u16, low: u64, high: u64) -> bool
    requires { (p < 65535) × (length marks.now ≡ 5120) × (length words.now ≡ 10240) }
    ensures { result ≡ true → Knows (marks.now ++ words.now) p low high }
{
    if covers(marks, words, p, low, high, slot(p, low, high)) {
        return true;
    }
    let first = row_slot(p);
    (first..first + 4).any(|s| covers(marks, words, p, low, high, s))
}

// Stores the state at place s.
fn store(marks: &mut [u16; 5120], words: &mut [u64], p: u16, low: u64, high: u64, s: usize)
    requires { (p < 65535) × (s < 5120) × (length marks.old ≡ 5120) × (length words.old ≡ 10240) }
    ensures { (marks.new ++ words.new ≡ stored (marks.old ++ words.old) p low high s)
        × (length marks.new ≡ 5120) × (length words.new ≡ 10240) }
{
    marks[s] = p + 1;
    words[s] = low;
    words[5120 + s] = high;
}

// Notes that the state of row p fails.
pub(super) fn note(marks: &mut [u16; 5120], words: &mut [u64], p: u16, low: u64, high: u64)
    requires { (p < 65535) × (length marks.old ≡ 5120) × (length words.old ≡ 10240) }
    ensures { Noted (marks.old ++ words.old) (marks.new ++ words.new) p low high
        × (length marks.new ≡ 5120) × (length words.new ≡ 10240) }
{
    let h = slot(p, low, high);
    store(marks, words, p, low, high, h);
    let s = free_slot(marks, p, h);
    store(marks, words, p, low, high, s);
}
