//! The bytes of a string argument.

ghost use Rattle.std.specs.Prelude.{◌≡◌, ◌↔◌, IfOk, IsErr, Contains};
ghost use Rattle.std.specs.Str.Lossy.{utf8_lossy};
ghost use Rattle.std.specs.String.{string_bytes};
ghost use Rattle.wl_wire.specs.Text.{HasNoZero};
ghost use Rattle.std.specs.Cmp.{nat_eq_equiv, partial_equiv_from_equiv};
ghost use Rattle.std.specs.Cmp.Lexicographic.{lists_equiv};
ghost use Rattle.std.specs.Str.{bytes_eq};

use crate::error::OutOfMemory;
use bstr::ByteSlice;
use std::alloc::{AllocError, Global};
use std::marker::Model;
use thiserror::Error;

/// The error of [`CString::new`]: there is a zero byte among the bytes.
#[derive(Clone, Copy, Debug, PartialEq, Eq, Error)]
#[error("a string holds a zero byte")]
pub struct ZeroByte;

/// The bytes of a string argument, without the zero byte that ends it on the wire.
///
/// None of the bytes is zero. They need not be UTF-8. In contracts a string is the list of its bytes.
#[derive(Debug, Drop)]
pub struct CString {
    bytes: Vec<u8>,
}

impl Model for CString {
    ghost use Rattle.std.specs.Prelude.{ℕ, List};
    ghost use Rattle.wl_wire.specs.Text.{HasNoZero};

    ghost Value = { List ℕ };

    ghost view = { λ s. s.bytes.items };

    ghost invariant = { λ s. HasNoZero s.bytes.items };
}

impl CString {
    /// The string of these bytes. It allocates nothing.
    ///
    /// The error is `ZeroByte` if one of the bytes is zero.
    pub fn new(bytes: Vec<u8>) -> Result<Self, ZeroByte>
        ensures bytes { IfOk result (λ s. s ≡ bytes.items) }
        ensures zero { IsErr result ↔ Contains bytes.items 0 }
    {
        if bytes.contains(&0) {
            return Err(ZeroByte);
        }
        Ok(CString { bytes })
    }

    /// A string with a copy of these bytes, none of which is zero. The error says that there was no memory for it.
    pub(crate) fn copied(alloc: Global, bytes: &[u8]) -> Result<Self, AllocError>
        requires { HasNoZero bytes.now }
        ensures { IfOk result (λ s. s ≡ bytes.now) }
    {
        let bytes = Vec::from_slice(alloc, bytes)?;
        Ok(CString { bytes })
    }

    /// The bytes, without a zero byte at the end.
    pub fn as_bytes(&self) -> &[u8]
        ensures bytes { result.now ≡ self.now }
        ensures no_zero { HasNoZero self.now }
    {
        self.bytes.as_slice()
    }

    /// The bytes, as the vector that the string was made from. It allocates nothing.
    pub fn into_bytes(self) -> Vec<u8>
        ensures bytes { result.items ≡ self }
        ensures no_zero { HasNoZero self }
    {
        self.bytes
    }

    /// The bytes as text, with U+FFFD in place of each piece that is not UTF-8.
    ///
    /// The error is `OutOfMemory` if there is no memory for the text.
    pub fn to_string_lossy(&self, alloc: Global) -> Result<String, OutOfMemory>
        ensures { IfOk result (λ text. string_bytes text ≡ utf8_lossy self.now) }
    {
        let text = self.bytes.as_slice().to_str_lossy(alloc)?;
        Ok(text.into_owned(alloc)?)
    }
}

impl PartialEq for CString {
    ghost eq = { bytes_eq };

    ghost laws = { partial_equiv_from_equiv (lists_equiv nat_eq_equiv) };

    fn eq(&self, other: &Self) -> bool {
        self.bytes == other.bytes
    }
}

impl Eq for CString {
    ghost laws = { lists_equiv nat_eq_equiv };
}
