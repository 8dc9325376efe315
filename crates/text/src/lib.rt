#![tactic(auto)]
// Text put into a lent buffer, byte by byte: each call answers the place behind what it put. Where the buffer is full, the rest is left out.
ghost use Rattle.std.specs.Prelude.{◌+◌, ◌<◌, ◌≡◌};
ghost use Rattle.text.specs.Text.{filled_to, put_of, put_all_of, decimal_of};

// One byte.
pub fn put(out: &mut [u8], at: usize, b: u8) -> usize
    ensures { filled_to result out.new ≡ put_of (filled_to at out.old) b }
{
    if at < out.len() {
        out[at] = b;
        return at + 1;
    }
    at
}

// The bytes of `text`, in their order.
pub fn put_all(out: &mut [u8], at: usize, text: &[u8]) -> usize
    ensures { filled_to result out.new ≡ put_all_of (filled_to at out.old) text.now }
{
    let mut end = at;
    for &b in text {
        end = put(out, end, b);
    }
    end
}

// The digit of a number below 10.
fn digit(n: u32) -> u8
    requires { n < 10 }
    ensures { result ≡ 48 + n }
{
    48 + n as u8
}

// The decimal digits of n, the most significant first.
pub fn put_number(out: &mut [u8], at: usize, n: u32) -> usize
    ensures { filled_to result out.new ≡ put_all_of (filled_to at out.old) (decimal_of n) }
{
    if n < 10 {
        return put(out, at, digit(n));
    }
    let last = put_number(out, at, n / 10);
    put(out, last, digit(n % 10))
}
