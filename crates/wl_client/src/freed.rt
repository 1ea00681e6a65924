//! The ids of the objects that left their numbers in a reading, which a program may have kept.

ghost use Rattle.std.specs.Prelude.{◌≡◌, ◌&&◌, if◌then◌else◌, [], IsSome, OnOk, false};
ghost use Rattle.wl_client.specs.Accounts.{CallsLocally};
ghost use Rattle.wl_client.specs.Freeing.{HandsFreed, kept_freed, with_freed};
ghost use Rattle.wl_client.specs.Inside.Freed.{FreedStays, HasPlace};
ghost use Rattle.wl_client.specs.Plain.Calls.{SetsKeepingFreed, TakesFreed};
ghost use Rattle.wl_client.specs.declared.step.Reply.TheVariants as reply;
ghost use Rattle.wl_client.specs.declared.step.Step.TheVariants as step;

use crate::backend::Backend;
use crate::object_id::ObjectId;
use std::collections::VecDeque;
use wl_wire::OutOfMemory;

/// The ids of the objects that left their numbers as a message was handled, while the program has them kept.
#[derive(Drop)]
pub struct Freed {
    /// Whether they are kept.
    pub kept: bool,
    /// Those that were not taken yet, the oldest first.
    pub ids: VecDeque<ObjectId>,
}

impl Freed {
    /// From now on they are kept, or no more. Those that wait go on waiting if they were kept and are, and else are dropped.
    fn keep(&mut self, keeps: bool)
        ensures kept { self.new.kept ≡ keeps }
        ensures ids { self.new.ids.items ≡ (if keeps && self.old.kept then self.old.ids.items else []) }
    {
        if keeps && self.kept {
            return;
        }
        self.kept = keeps;
        self.ids = VecDeque::new(*self.ids.allocator());
    }

    /// Makes room for one more id, if they are kept.
    pub fn reserve(&mut self) -> Result<(), OutOfMemory>
        ensures stays { FreedStays self.old self.new }
        ensures place { OnOk result (HasPlace self.new) }
    {
        if !self.kept {
            return Ok(());
        }
        match self.ids.reserve(1) {
            Ok(()) => Ok(()),
            Err(_) => Err(OutOfMemory),
        }
    }

    /// Appends the id, if there is one and they are kept.
    pub fn push(&mut self, id: Option<ObjectId>)
        requires { IsSome id → HasPlace self.old }
        ensures kept { self.new.kept ≡ self.old.kept }
        ensures ids { self.new.ids.items ≡ with_freed self.old.kept self.old.ids.items id }
    {
        if let Some(id) = id {
            if self.kept {
                self.ids.push_back_reserved(id);
            }
        }
    }
}

impl<T: Drop, U: Drop> Backend<T, U> {
    /// Sets whether the session keeps the ids of the objects that leave their numbers in a reading, for `next_freed`. In a new
    /// session it does not.
    ///
    /// Such an object *leaves its number* when the server deletes its id (`wl_display.delete_id`), or makes an object of its own
    /// there. The client had destroyed it, or an event had. So a program that has data by number or id can drop them then. The
    /// only other call by which an object leaves its number is `reclaim`, whose answer says so.
    ///
    /// While ids are kept, a reading asks for the place of one before it reads a `delete_id`. If there is no memory for that, the
    /// message stays unread, and the answer is `OutOfMemory`. If they are kept no more, those that wait are dropped. This call
    /// allocates nothing.
    pub fn keep_freed(&mut self, keeps: bool)
        ensures call { CallsLocally self.old (step.KeepFreed keeps) reply.KeepFreed self.new }
        ensures plain { SetsKeepingFreed self.old.session keeps self.new.session }
        ensures set { self.new.session ≡ kept_freed self.old.session keeps }
        ensures refused { self.new.refused ≡ false }
    {
        self.set_keeping(keeps);
    }

    /// Sets whether ids are kept.
    fn set_keeping(&mut self, keeps: bool)
        ensures set { self.new.session ≡ kept_freed self.old.session keeps }
        ensures refused { self.new.refused ≡ false }
    {
        self.refused = false;
        self.freed.keep(keeps);
    }

    /// Takes the next id that was kept (`keep_freed`), in the order in which the objects left their numbers; `None` if there is
    /// none. It names nothing any more. Its number may have a new object by now, so compare the serial. The call allocates
    /// nothing.
    pub fn next_freed(&mut self) -> Option<ObjectId>
        ensures call { CallsLocally self.old step.NextFreed (reply.NextFreed result) self.new }
        ensures plain { TakesFreed self.old.session result self.new.session }
        ensures handed { HandsFreed self.old.session.freed self.old.session result self.new.session }
        ensures refused { self.new.refused ≡ false }
    {
        self.take_freed()
    }

    /// Takes the first id that waits.
    fn take_freed(&mut self) -> Option<ObjectId>
        ensures handed { HandsFreed self.old.session.freed self.old.session result self.new.session }
        ensures refused { self.new.refused ≡ false }
    {
        self.refused = false;
        self.freed.ids.pop_front()
    }
}
