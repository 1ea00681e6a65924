//! Which clients were touched since nothing waited for them. `flush(None)`, `cleanup` and `take_notes` look for work only among these.

ghost use Rattle.std.specs.Prelude.{ℕ};
ghost use Rattle.wl_sets.specs.SlotSets.{Adds, IsOut};
ghost use Rattle.wl_server.specs.Inside.Touched.{StayTouched};

use std::alloc::Global;
use wl_sets::slot_set::SlotSet;
use wl_wire::OutOfMemory;

/// The slots of the clients for which something may wait. A client that is looked up to be changed is put into both sets.
/// Each is taken out where it is seen that nothing waits for it.
#[derive(Drop)]
pub struct Touched {
    /// Bytes may wait to be sent to these. To no other client do any.
    pub to_send: SlotSet,
    /// These may have notes, or may have been killed. No other client has any note, and each is live.
    pub to_note: SlotSet,
}

impl Touched {
    /// All slots. It allocates nothing.
    pub fn all(alloc: Global) -> Self {
        Touched {
            to_send: SlotSet::all(alloc),
            to_note: SlotSet::all(alloc),
        }
    }

    /// Makes a bit for the slot in both sets, if the slots before it have theirs.
    pub fn grow_to(&mut self, slot: usize) -> Result<(), OutOfMemory>
        ensures { StayTouched self.old self.new }
    {
        self.to_send.grow_to(slot)?;
        self.to_note.grow_to(slot)?;
        Ok(())
    }

    /// Puts the slot into both sets.
    pub fn insert(&mut self, slot: usize)
        ensures to_send { Adds slot self.old.to_send.words.items self.new.to_send.words.items }
        ensures to_note { Adds slot self.old.to_note.words.items self.new.to_note.words.items }
    {
        self.to_send.insert(slot);
        self.to_note.insert(slot);
    }

    /// Puts all slots into both sets.
    pub fn insert_all(&mut self)
        ensures to_send { (k : ℕ) → IsOut self.new.to_send.words.items k → ⊥ }
        ensures to_note { (k : ℕ) → IsOut self.new.to_note.words.items k → ⊥ }
    {
        self.to_send.insert_all();
        self.to_note.insert_all();
    }
}
