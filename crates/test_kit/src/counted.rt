//! Values that count how often each of them is dropped.

use std::cell::Cell;
use std::fmt::Write;
use std::test::Fail;

/// A value that adds its weight to a sum when it is dropped. Weights are powers of ten: so the sum has a digit for each value,
/// which says how often that was dropped. It serves as the data of objects and clients.
pub struct Counted<'a> {
    drops: &'a Cell<u64>,
    weight: u64,
}

impl<'a> Counted<'a> {
    /// The value of this weight.
    pub fn new(drops: &'a Cell<u64>, weight: u64) -> Self {
        Counted { drops, weight }
    }
}

impl Drop for Counted<'_> {
    fn drop(self) {
        self.drops.set(self.drops.get().wrapping_add(self.weight));
        let Counted {
            drops: _,
            weight: _,
        } = self;
    }
}

/// Tells what was dropped so far: before the answer of a call is let go of, and after that.
pub fn tell_drops<A: Drop>(drops: &Cell<u64>, log: &mut String, answer: A) -> Result<(), Fail> {
    let by_call = drops.get();
    drop(answer);
    let in_all = drops.get();
    Ok(writeln!(log, "{by_call:08}, {in_all:08}")?)
}
