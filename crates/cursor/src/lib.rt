#![tactic(auto)]
// A cursor over a byte string: it takes one field and gives itself on, one field further. And a field put into a buffer.
ghost use Rattle.std.specs.Prelude.{◌≡◌};
ghost use Rattle.std.proofs.lemmas.List.Edits.{sets};
ghost use Rattle.cursor.specs.Fields.{byte_at, word_at, word_bytes};

#[derive(Clone, Copy)]
pub struct Cursor {
    pub at: usize,
}

impl Cursor {
    // The byte here, and the cursor behind it; none, where the bytes have ended.
    pub fn byte(self, s: &[u8]) -> Option<(u8, Cursor)>
        ensures { result ≡ byte_at s.now self.at }
    {
        let b = *s.get(self.at)?;
        Some((b, Cursor { at: self.at + 1 }))
    }

    // A u16 is two bytes, low byte first.
    pub fn word(self, s: &[u8]) -> Option<(u16, Cursor)>
        ensures { result ≡ word_at s.now self.at }
    {
        let (low, second) = self.byte(s)?;
        let (high, next) = second.byte(s)?;
        Some((u16::from_le_bytes([low, high]), next))
    }
}

// A u16 into the two bytes from a place on. A byte behind the end is left out.
pub fn put_word(out: &mut [u8], at: usize, w: u16)
    ensures { out.new ≡ sets out.old at (word_bytes w) }
{
    if out.len() <= at {
        return;
    }
    out[at] = (w % 256) as u8;
    if out.len() <= at + 1 {
        return;
    }
    out[at + 1] = (w / 256) as u8;
}
