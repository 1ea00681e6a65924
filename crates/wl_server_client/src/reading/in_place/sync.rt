//! Answers a `wl_display.sync` in place, without making its callback.

ghost use Rattle.std.specs.Prelude.{◌≡◌, IfSome, IsTrue, MatchBool, Some};
ghost use Rattle.wl_server_client.specs.Inside.Conversion.{objects_of};
ghost use Rattle.wl_server_client.specs.Inside.ReadingLoop.{HandlesMessage, IsFront, Live, WentOn, around_of};
ghost use Rattle.wl_server_client.specs.Inside.Syncing.{IsSyncOf, LeavesNoTrace};
ghost use Rattle.wl_server_client.specs.NoteTimes.{IsNumbered};

use crate::client::Client;
use crate::events::own_events::{DONE_SIZE, put_done_at_once};
use crate::globals::handler::GlobalHandler;
use crate::objects::ClientObjects;
use crate::reading::Surroundings;
use crate::reading::action::Reading;
use crate::reading::front_request::FrontRequest;
use crate::reading::limit::is_above;
use wl_link::{BufferedSocket, SERVER_ID_LIMIT, Transport};
use wl_wire::WL_DISPLAY_INTERFACE;
use wl_wire::opcodes::SYNC;

/// Whether a client may make an object at this number, and the object, if it is removed at once, changes nothing of the
/// client's objects but the last serial. The number was in use before, so no memory is needed.
fn leaves_no_trace<U: Drop>(objects: &ClientObjects<U>, number: u32) -> bool
    ensures { IsTrue result → LeavesNoTrace (objects_of objects.now) number }
{
    number < SERVER_ID_LIMIT && objects.last_serial != u64::MAX && objects.map.is_vacant(number)
}

/// The number of the callback, if the request at the front is a sync, is complete, and has no more bytes than it needs.
fn waiting_sync<T: Drop>(socket: &BufferedSocket<T>, front: &FrontRequest<'_>) -> Option<u32>
    ensures { IfSome result (λ n. IsSyncOf socket.now front.now n) }
{
    if front.sender.interface != WL_DISPLAY_INTERFACE || front.opcode != SYNC {
        return None;
    }
    socket.next_word()
}

impl<T: Transport + Drop, U: Drop, C: Drop> Client<T, U, C> {
    /// Answers the request at the front, if it is a sync whose callback need not be made and there is room for both answers.
    /// Returns whether it did. If not, nothing is changed.
    pub fn answer_sync<G: GlobalHandler<C> + Drop>(
        &mut self,
        around: &Surroundings<'_, G>,
        reading: &mut Reading,
        front: &FrontRequest<'_>,
    ) -> bool
        requires live { Live self.old.part }
        requires front { IsFront around.now.protocol.now self.old.part.store self.old.part.link front.now }
        ensures handles { MatchBool result
            (HandlesMessage T.sends T.receives (around_of G.views around.now) self.old reading.old WentOn self.new reading.new)
            ((self.new ≡ self.old) × (reading.new ≡ reading.old)) }
        ensures times { self.new.times ≡ self.old.times }
        ensures numbered { IsNumbered (Some self.old) → IsNumbered (Some self.new) }
    {
        let Some(number) = waiting_sync(&self.socket, front) else {
            return false;
        };
        if is_above(around.object_limit, number) {
            return false;
        }
        if !leaves_no_trace(&self.objects, number) || !self.socket.has_room(DONE_SIZE) {
            return false;
        }
        self.socket.skip_message(0);
        put_done_at_once(&mut self.socket, number);
        self.objects.last_serial += 1;
        reading.read = reading.read.saturating_add(1);
        true
    }
}
