//! Texts of up to 7 bytes, which lie in the value itself.
ghost use Rattle.std.specs.Prelude.{◌≡◌, [], ◌∷◌, ◌++◌, ◌<◌, ◌≤◌, length, take, IfSome, IsTrue, IsFalse, OnSome};
ghost use Rattle.std.specs.Str.{IsUtf8};

use std::marker::Model;
use std::str;

/// A text of up to 7 bytes, in 8 bytes, which contracts see as its bytes.
#[derive(Drop)]
pub struct Short {
    bytes: [u8; 7],
    len: u8,
}

impl Model for Short {
    ghost use Rattle.std.specs.Prelude.{List, ℕ, ◌≤◌, take};
    ghost use Rattle.std.specs.Str.{IsUtf8};

    ghost Value = { List ℕ };

    ghost view = { λ s. take s.len s.bytes };

    ghost invariant = { λ s. (s.len ≤ 7) × IsUtf8 (take s.len s.bytes) };
}

impl Short {
    /// The empty text.
    pub fn new() -> Short
        ensures { result ≡ [] }
    {
        Short {
            bytes: [0; 7],
            len: 0,
        }
    }

    /// The bytes.
    pub fn as_bytes(&self) -> &[u8]
        ensures { result.now ≡ self.now }
    {
        let (front, _) = self.bytes.split_at(usize::from(self.len));
        front
    }

    /// The text, which is UTF-8.
    pub fn as_str(&self) -> &str
        ensures { result.now ≡ self.now }
    {
        let (front, _) = self.bytes.split_at(usize::from(self.len));
        match str::from_utf8(front) {
            Ok(text) => text,
            Err(_) => unreachable!(),
        }
    }

    /// Appends an ASCII character, if there is room for it.
    pub fn push_ascii(&mut self, byte: u8) -> bool
        requires { byte < 128 }
        ensures pushed { IsTrue result → self.new ≡ self.old ++ byte ∷ [] }
        ensures full { IsFalse result → self.new ≡ self.old }
    {
        if self.len >= 7 {
            return false;
        }
        self.bytes[usize::from(self.len)] = byte;
        self.len += 1;
        true
    }

    /// An equal text.
    pub fn copy(&self) -> Short
        ensures { result ≡ self.now }
    {
        Short {
            bytes: self.bytes,
            len: self.len,
        }
    }
}

/// A text in the value itself. None where it is longer than 7 bytes.
pub fn short_of(text: &str) -> Option<Short>
    ensures { IfSome result (λ s. s ≡ text.now) }
{
    let from = text.as_bytes();
    if from.len() > 7 {
        return None;
    }
    let mut bytes = [0; 7];
    let (front, _) = bytes.split_at_mut(from.len());
    front.copy_from_slice(from);
    Some(Short {
        bytes,
        len: from.len() as u8,
    })
}
