// A text in an array, seen as the list of its bytes, and the pieces of a line that are appended to it: words, and numbers in decimal.
ghost use Rattle.std.specs.Prelude.{◌≡◌, ◌-◌, ◌≤◌, [], ◌∷◌, ◌++◌, length, replicate};
ghost use Rattle.specification.specs.Text.{decimal, decimalℤ};
ghost use Rattle.text.specs.Lengths.{text_most};
ghost use Rattle.text.specs.Rendering.{HasRoom};

use std::marker::Model;

// The bytes of the longest text: 50 for its first line, and 17 for the line of each of 1,024 pairs.
pub const TEXT_MOST: usize = 50 + 17 * 1024;

// A text: the first `len` bytes. After it all are 0.
#[derive(Clone, Copy)]
pub struct Text {
    bytes: [u8; TEXT_MOST],
    len: usize,
}

impl Model for Text {
    ghost use Rattle.std.specs.Prelude.{◌≡◌, List, ℕ, ◌++◌, ◌-◌, ◌≤◌, length, take, drop, replicate};
    ghost use Rattle.text.specs.Lengths.{text_most};
    ghost use Rattle.std.proofs.Common.{arith, take-append-drop, length-take-le};

    ghost Value = { List ℕ };

    ghost view = { λ t. take t.len t.bytes };

    ghost invariant = { λ t. (t.len ≤ text_most) × (length t.bytes ≡ text_most) × (drop t.len t.bytes ≡ replicate (text_most - t.len) 0) };

    ghost inverse = { λ v. record { bytes = v ++ replicate (text_most - length v) 0; len = length v } };

    ghost inverse_ok = { λ t h i. record {
      bytes = (let taken : length (take t.len t.bytes) ≡ t.len = length-take-le t.len t.bytes (omega (arith, h.0, h.1)) in
          let back : take t.len t.bytes ++ replicate (text_most - length (take t.len t.bytes)) 0 ≡ t.bytes = rw (taken, ← h.2) (take-append-drop t.len t.bytes) in
          back i);
      len = length-take-le t.len t.bytes (omega (arith, h.0, h.1)) i;
    } };
}

impl Text {
    // No bytes.
    pub(crate) fn new() -> Text
        ensures { result ≡ [] }
    {
        Text {
            bytes: [0; TEXT_MOST],
            len: 0,
        }
    }

    // Its bytes, as a slice: at most those of the longest text.
    pub fn as_bytes(&self) -> &[u8]
        ensures text { result.now ≡ self.now }
        ensures within { length result.now ≤ text_most }
    {
        &self.as_array()[..self.len]
    }

    // The whole array: its bytes, and zeros after them.
    pub fn as_array(&self) -> &[u8; TEXT_MOST]
        ensures { result.now ≡ self.now ++ replicate (text_most - length self.now) 0 }
    {
        &self.bytes
    }

    // One byte.
    pub(crate) fn put(&mut self, byte: u8)
        requires { HasRoom self.old (byte ∷ []) }
        ensures { self.new ≡ self.old ++ byte ∷ [] }
    {
        self.bytes[self.len] = byte;
        self.len += 1;
    }

    // A byte string.
    pub(crate) fn word(&mut self, word: &[u8])
        requires { HasRoom self.old word.now }
        ensures { self.new ≡ self.old ++ word.now }
    {
        let end = self.len + word.len();
        self.bytes[self.len..end].copy_from_slice(word);
        self.len = end;
    }

    // A number in decimal: the digits of its tenth, and then its last digit. `write!` would answer that a text may be full, which this has room for.
    pub(crate) fn number(&mut self, n: u64)
        requires { HasRoom self.old (decimal n) }
        ensures { self.new ≡ self.old ++ decimal n }
    {
        if 10 <= n {
            self.number(n / 10);
        }
        self.put(b'0' + (n % 10) as u8);
    }

    // A number with a minus where it is below zero.
    pub(crate) fn signed_number(&mut self, v: i64)
        requires { HasRoom self.old (decimalℤ v) }
        ensures { self.new ≡ self.old ++ decimalℤ v }
    {
        if v < 0 {
            self.put(b'-');
        }
        self.number(v.unsigned_abs());
    }

    // A space and a number: a field after the first.
    pub(crate) fn field(&mut self, n: u64)
        requires { HasRoom self.old (32 ∷ decimal n) }
        ensures { self.new ≡ self.old ++ 32 ∷ decimal n }
    {
        self.put(b' ');
        self.number(n);
    }

    // A newline.
    pub(crate) fn end_line(&mut self)
        requires { HasRoom self.old (10 ∷ []) }
        ensures { self.new ≡ self.old ++ 10 ∷ [] }
    {
        self.put(b'\n');
    }
}
