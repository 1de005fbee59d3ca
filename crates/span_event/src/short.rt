//! A short text, which lies in the value itself.
ghost use Rattle.std.specs.Prelude.{◌≡◌, ℕ, ◌≤◌, List, [], length, take, IsUtf8};

use std::marker::Model;
use std::str;

/// How many bytes a short text may have: with their number and the mark of a text they take 16 bytes.
pub(crate) const SHORT: usize = 14;

/// UTF-8 of at most 14 bytes.
#[derive(Drop)]
pub(crate) struct Short {
    len: u8,
    bytes: [u8; 14],
}

impl Model for Short {
    ghost Value = { List ℕ };

    ghost view = { λ s. take s.len s.bytes };

    ghost invariant = { λ s. (s.len ≤ 14) × (length s.bytes ≡ 14) × ∥ IsUtf8 (take s.len s.bytes) ∥₁ };
}

impl Short {
    pub(crate) fn empty() -> Short
        ensures { result ≡ [] }
    {
        Short {
            len: 0,
            bytes: [0; SHORT],
        }
    }

    pub(crate) fn of(text: &str) -> Short
        requires { length text.now ≤ 14 }
        ensures { result ≡ text.now }
    {
        let mut bytes = [0; SHORT];
        bytes[..text.len()].copy_from_slice(text.as_bytes());
        Short {
            len: text.len() as u8,
            bytes,
        }
    }

    pub(crate) fn copy(&self) -> Short
        ensures { result ≡ self.now }
    {
        Short {
            len: self.len,
            bytes: self.bytes,
        }
    }

    #[inline]
    pub(crate) fn as_str(&self) -> &str
        ensures { result.now ≡ self.now }
    {
        unsafe { str::from_utf8_unchecked(&self.bytes[..self.len as usize]) }
    }
}
