//! What an object id names, over every run of a session. Each function does nothing; its contract states a law.
//!
//! An id has a number and a *serial*. Each object has a serial of its own, which one counter of the session gives out. An
//! id *names* the object at its number, if that object has its serial.

ghost use Rattle.std.specs.Prelude.{ℕ, Bool};
ghost use Rattle.wl_link.specs.Identity.{EndsOnceLaw, IdentityLaw};
ghost use Rattle.wl_link.specs.Named.{NamedLaw, NoneAgainLaw};
ghost use Rattle.wl_link.specs.declared.object.Object.{Object};

/// The identity law: an id names the object that it was made of, as long as that object is kept, and then none.
///
/// After every run of changes the serials of the kept objects are distinct, and none is above the last serial that was
/// given out. If an id is made in the step that puts an object of its number and serial in place, it is the id of that very
/// object.
pub fn each_id_names_its_own_object<Data>()
    ensures { (serial_of : Data → ℕ) → IdentityLaw serial_of }
{}

/// The same law for any id, no matter where it comes from, from a point of a run on at which it names an object.
///
/// From then on it names that object, as long as that object is kept, and then none (`named`). If it names none at a later
/// point, it never names one again (`none`).
pub fn each_id_that_names_an_object_keeps_it<Data>()
    ensures named { (serial_of : Data → ℕ) → NamedLaw serial_of }
    ensures none { (serial_of : Data → ℕ) → NoneAgainLaw serial_of }
{}

/// No object ends twice. Over every run of changes, any two of the objects that ended differ in number or serial.
///
/// The objects have a flag that says whether they are over. The law also holds if only some of the objects are counted.
pub fn no_object_ends_twice<Data>()
    ensures { (serial_of : Data → ℕ) (is_over : Data → Bool) (counts : Object Data → Bool) → EndsOnceLaw serial_of is_over counts }
{}
