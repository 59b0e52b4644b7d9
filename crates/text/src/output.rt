// An output: bytes and the place behind what was put into them.
ghost use Rattle.std.specs.Prelude.{[], ◌∷◌, ◌+◌, ◌≤◌, ◌<◌, length, T};
ghost use Rattle.model.specs.Value.{allowed};
ghost use Rattle.model.specs.Text.{decimal, signed};
ghost use Rattle.model.specs.View.{shown};
ghost use Rattle.kind.specs.Code.{code};
ghost use Rattle.text.specs.Output.{Puts};

use kind::Kind;

// Bytes, and the place behind what was put into them.
#[derive(Drop)]
pub struct Output<'a> {
    pub bytes: &'a mut [u8],
    pub at: usize,
}

impl<'a> Output<'a> {
    // One byte.
    pub fn put_byte(&mut self, b: u8)
        requires { self.old.at < 4294967296 }
        ensures { Puts self.old (b ∷ []) self.new }
    {
        self.at = crate::put_byte(self.bytes, self.at, b);
    }

    // The bytes of s: all of them, or those that there is room for.
    pub fn put_bytes(&mut self, s: &[u8])
        requires { self.old.at + length s.now ≤ 4294967296 }
        ensures { Puts self.old s.now self.new }
    {
        self.at = crate::put_bytes(self.bytes, self.at, s);
    }

    // A number in decimal.
    pub fn put_decimal(&mut self, n: u32)
        requires { self.old.at + 10 < 4294967296 }
        ensures { Puts self.old (decimal n) self.new }
    {
        self.at = crate::put_decimal(self.bytes, self.at, n);
    }

    // A number of 32 bits as a signed number in decimal, with a minus sign if it is negative.
    pub fn put_signed(&mut self, m: u32)
        requires { self.old.at + 11 < 4294967296 }
        ensures { Puts self.old (signed m) self.new }
    {
        self.at = crate::put_signed(self.bytes, self.at, m);
    }

    // A value as it is shown: a number in decimal, - for no bytes, and else the bytes.
    pub fn put_value(&mut self, kind: Kind, value: &[u8])
        requires at_bound { self.old.at + 16 < 4294967296 }
        requires t { T (allowed (code kind) value.now) }
        ensures { Puts self.old (shown (code kind) value.now) self.new }
    {
        self.at = crate::put_value(self.bytes, self.at, kind, value);
    }
}
