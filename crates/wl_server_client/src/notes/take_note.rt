//! Takes the notes of a client, one by one.

ghost use Rattle.std.specs.Prelude.{◌≡◌, ◌∷◌, [], None, Some, MatchOption};
ghost use Rattle.wl_server_client.specs.Inside.Gathering.{emptied};
ghost use Rattle.wl_server_client.specs.NoteTimes.{IsNumbered, TakesFirst, to_gather};
ghost use Rattle.wl_server_client.specs.Inside.NoteTimes.{AreNumbered};

use crate::client::Client;
use crate::notes::Happening;

impl<T, U, C> Client<T, U, C> {
    /// Takes the next note of the client: the oldest that was made, or if there is none and `waits` is set, the oldest
    /// that waits.
    pub fn take_note(&mut self, waits: bool) -> Option<Happening<U>>
        ensures taken { MatchOption result ((self.new ≡ self.old) × (to_gather waits (Some self.old) ≡ []))
            (λ h. (to_gather waits (Some self.old) ≡ h ∷ to_gather waits (Some self.new)) × (emptied waits self.new ≡ emptied waits self.old)) }
        ensures first { TakesFirst self.old.times self.new.times }
        ensures numbered { AreNumbered waits (Some self.new) }
        ensures all_numbered { IsNumbered (Some self.old) → IsNumbered (Some self.new) }
    {
        if let Some(happening) = self.made.pop() {
            return Some(happening);
        }
        if waits {
            return self.waiting.pop();
        }
        None
    }
}
