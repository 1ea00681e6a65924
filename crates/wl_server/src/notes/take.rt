//! Hands the notes out to the program.

ghost use Rattle.wl_server_model.specs.Backend.{Calls};
ghost use Rattle.wl_server_model.specs.PartStep.{over};
ghost use Rattle.wl_server_model.specs.Plain.{TakesNotes};
ghost use Rattle.wl_server_model.specs.declared.step.Reply.TheVariants as reply;
ghost use Rattle.wl_server_model.specs.declared.step.Step.TheVariants as step;

use crate::backend::Backend;
use crate::notes::gather::gather_made;
use std::mem;
use wl_link::Transport;
use wl_server_client::globals::handler::GlobalHandler;
use wl_server_client::notes::Note;
use wl_wire::OutOfMemory;

impl<T: Transport + Drop, U: Drop, G: GlobalHandler<C> + Drop, C: Drop> Backend<T, U, G, C> {
    /// Takes the notes that were made, the oldest first.
    ///
    /// The error is `OutOfMemory`, if there is no memory for the list. Then nothing is changed. If no note was made since
    /// the last call of `take_notes` or `cleanup`, the call allocates nothing.
    pub fn take_notes(&mut self) -> Result<Vec<Note<U>>, OutOfMemory>
        ensures call { Calls (over T.sends T.receives G.views) self.old step.TakeNotes (reply.TakeNotes result) self.new }
        ensures plain { TakesNotes self.old result self.new }
    {
        let alloc = self.alloc();
        self.refused = false;
        match gather_made(
            alloc,
            &mut self.clients,
            &mut self.touched.to_note,
            &mut self.notes,
        ) {
            Ok(()) => {
                let none = Vec::new(alloc);
                Ok(mem::replace(&mut self.notes, none))
            }
            Err(error) => {
                self.refused = true;
                Err(error)
            }
        }
    }
}
