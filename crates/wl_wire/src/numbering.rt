//! The numbers that the object ids of a message have on the wire.

ghost use Rattle.std.specs.Prelude.{◌≡◌, ℕ};

/// What gives the object ids of a message their numbers on the wire.
///
/// An implementation says by two functions, `object_number` and `new_number`, which numbers it gives. Contracts use these
/// functions.
pub trait Numbering<Id> {
    ghost object_number: { Self → Id → ℕ };

    ghost new_number: { Self → Id → ℕ };

    /// The number of an existing object.
    fn number_object(&self, id: &Id) -> u32
        ensures { result ≡ object_number self.now id.now };

    /// The number of the object that the message creates.
    fn number_new(&self, id: &Id) -> u32
        ensures { result ≡ new_number self.now id.now };
}

/// The numbering for ids that are numbers already: the number of each id is the id itself.
#[derive(Clone, Copy, Debug)]
pub struct OwnNumbers;

impl Numbering<u32> for OwnNumbers {
    ghost object_number = { λ _ n. n };

    ghost new_number = { λ _ n. n };

    fn number_object(&self, id: &u32) -> u32 {
        *id
    }

    fn number_new(&self, id: &u32) -> u32 {
        *id
    }
}
