//! What was made last under each number.

ghost use Rattle.std.specs.Prelude.{◌≡◌, ◌++◌, [], IfOk, OnOk};
ghost use Rattle.std.specs.Option.{option_to_list};
ghost use Rattle.wl_bench.specs.Bench.{all_latest, latest, with_latest};

use std::alloc::{AllocError, Global};

/// What was made last under each number. The numbers that are given are the least free ones, so few places stay empty.
#[derive(Drop)]
pub struct Latest<X> {
    places: Vec<Option<X>>,
}

/// Appends what there is to the others.
fn push_kept<X: Copy + Drop>(values: &mut Vec<X>, place: &Option<X>) -> Result<(), AllocError>
    ensures { OnOk result (values.new.items ≡ values.old.items ++ option_to_list place.now) }
{
    if let Some(value) = place {
        values.push(*value)?;
    }
    Ok(())
}

impl<X: Copy + Drop> Latest<X> {
    /// Nothing was made.
    pub fn new(alloc: Global) -> Self
        ensures { result.places.items ≡ [] }
    {
        Latest {
            places: Vec::new(alloc),
        }
    }

    /// What was made last under the number.
    pub fn get(&self, number: u32) -> Option<X>
        ensures { result ≡ latest number self.now.places.items }
    {
        match self.places.get(number as usize) {
            Some(Some(value)) => Some(*value),
            _ => None,
        }
    }

    /// All of them, by number.
    pub fn all(&self, alloc: Global) -> Result<Vec<X>, AllocError>
        ensures { IfOk result (λ values. values.items ≡ all_latest self.now.places.items) }
    {
        let mut values = Vec::new(alloc);
        for place in self.places.as_slice() {
            push_kept(&mut values, place)?;
        }
        Ok(values)
    }

    /// Puts what was made under the number in the place of what was made before.
    #[tactic(auto, using(crate::proofs::Places::set_latest))]
    pub fn put(&mut self, number: u32, value: X) -> Result<(), AllocError>
        ensures { OnOk result (self.new.places.items ≡ with_latest number value self.old.places.items) }
    {
        let place = number as usize;
        if place < self.places.len() {
            self.places[place] = Some(value);
            return Ok(());
        }
        for count in self.places.len()..place {
            self.places.push(None)?;
        }
        Ok(self.places.push(Some(value))?)
    }
}
