//! The killing of a client.

ghost use Rattle.std.specs.Prelude.{◌≡◌, if◌then◌else◌, MatchResult, Some};
ghost use Rattle.wl_link.specs.Puts.{lacks_memory};
ghost use Rattle.wl_server_client.specs.Inside.Client.{Does};
ghost use Rattle.wl_server_client.specs.NoteTimes.{IsNumbered, NotesInTime};
ghost use Rattle.wl_server_client.specs.Inside.NoteTimes.{one_made};
ghost use Rattle.wl_server_client.specs.Telling.{Kills};
ghost use Rattle.wl_server_client.specs.declared.notes.DisconnectReason.TheVariants.{ConnectionClosed};

use crate::client::Client;
use crate::notes::queues::NoteNumbers;
use crate::notes::{DisconnectReason, Happening};
use wl_wire::IoFault;

impl<T: Drop, U: Drop, C: Drop> Client<T, U, C> {
    /// Kills the client, and makes a note of that with the reason. The note uses up a number. A killed client stays as
    /// it is. It allocates no memory.
    pub fn kill(&mut self, numbers: &mut NoteNumbers, reason: DisconnectReason)
        ensures killed { Does self.old (λ p did q. Kills p reason did q) self.new }
        ensures numbers { numbers.new ≡ (if self.old.part.is_killed then numbers.old else one_made numbers.old) }
        ensures in_time { NotesInTime self.old.times numbers.old self.new.times numbers.new }
        ensures numbered { IsNumbered (Some self.old) → IsNumbered (Some self.new) }
    {
        if self.is_killed {
            return;
        }
        self.is_killed = true;
        self.made.push(numbers, Happening::Disconnected(reason));
    }

    /// Kills the client with the reason `ConnectionClosed`, if a write to it was answered by a fault. Returns whether
    /// memory ran out.
    pub fn kill_unless_written(
        &mut self,
        numbers: &mut NoteNumbers,
        answer: Result<(), IoFault>,
    ) -> bool
        ensures refused { result ≡ lacks_memory answer }
        ensures closed { MatchResult answer (λ _. self.new ≡ self.old) (λ _. Does self.old (λ p did q. Kills p ConnectionClosed did q) self.new) }
        ensures numbers { MatchResult answer (λ _. numbers.new ≡ numbers.old)
            (λ _. numbers.new ≡ (if self.old.part.is_killed then numbers.old else one_made numbers.old)) }
        ensures in_time { NotesInTime self.old.times numbers.old self.new.times numbers.new }
        ensures numbered { IsNumbered (Some self.old) → IsNumbered (Some self.new) }
    {
        let Err(fault) = answer else {
            return false;
        };
        self.kill(numbers, DisconnectReason::ConnectionClosed);
        matches!(fault, IoFault::OutOfMemory)
    }
}
