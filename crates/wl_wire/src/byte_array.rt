//! The bytes of an array argument.

ghost use Rattle.std.specs.Prelude.{◌≡◌};
ghost use Rattle.std.specs.Cmp.{nat_eq_equiv, partial_equiv_from_equiv};
ghost use Rattle.std.specs.Cmp.Lexicographic.{lists_equiv};
ghost use Rattle.std.specs.Str.{bytes_eq};

use std::marker::Model;

/// The bytes of an array argument: a `Vec<u8>`. In contracts it is the list of its bytes.
#[derive(Debug, Drop)]
pub struct ByteArray {
    bytes: Vec<u8>,
}

impl Model for ByteArray {
    ghost use Rattle.std.specs.Prelude.{ℕ, List};

    ghost Value = { List ℕ };

    ghost view = { λ a. a.bytes.items };
}

impl ByteArray {
    /// The array of these bytes. It allocates nothing.
    pub fn new(bytes: Vec<u8>) -> Self
        ensures { result ≡ bytes.items }
    {
        ByteArray { bytes }
    }

    /// The bytes.
    pub fn as_slice(&self) -> &[u8]
        ensures { result.now ≡ self.now }
    {
        self.bytes.as_slice()
    }

    /// The bytes, as the vector that the array was made from. It allocates nothing.
    pub fn into_vec(self) -> Vec<u8>
        ensures { result.items ≡ self }
    {
        let ByteArray { bytes } = self;
        bytes
    }
}

impl PartialEq for ByteArray {
    ghost eq = { bytes_eq };

    ghost laws = { partial_equiv_from_equiv (lists_equiv nat_eq_equiv) };

    fn eq(&self, other: &Self) -> bool {
        self.bytes == other.bytes
    }
}

impl Eq for ByteArray {
    ghost laws = { lists_equiv nat_eq_equiv };
}
