//! Requests that are handed out where they stand, without being read into a message.

ghost use Rattle.std.specs.Prelude.{◌≡◌, IfSome, IsTrue, MatchBool, MatchOption, Some};
ghost use Rattle.wl_wire.specs.Parse.{IsWhole, payload_of};
ghost use Rattle.wl_wire.specs.Table.{message_row};
ghost use Rattle.wl_server_client.specs.Deeds.{handed};
ghost use Rattle.wl_server_client.specs.NoteTimes.{IsNumbered};
ghost use Rattle.wl_server_client.specs.Inside.ReadingLoop.{Acts, HandlesMessage, IsFront, Live, around_of};
ghost use Rattle.wl_server_client.specs.Inside.Conversion.{objects_of};
ghost use Rattle.wl_server_client.specs.Inside.InPlace.{IsPut, MayStand};

/// The arguments of a request in place, read and named in one pass.
pub mod arguments;
/// The numbers in them, and the ids that they become.
pub mod naming;
/// Answers a `wl_display.sync` where it stands.
pub mod sync;

use crate::client::Client;
use crate::globals::handler::GlobalHandler;
use crate::ids::client_id::ClientId;
use crate::ids::object_id::ObjectId;
use crate::objects::ClientObjects;
use crate::reading::Surroundings;
use crate::reading::action::{Action, Reading};
use crate::reading::front_request::FrontRequest;
use crate::reading::in_place::arguments::put_arguments;
use wl_link::{BufferedSocket, Transport};
use wl_wire::{Args, WL_DISPLAY_INTERFACE, WL_REGISTRY_INTERFACE};

/// Whether this request may be handed out where it stands: those to displays and registries are answered, and those that the
/// object's version does not have are refused.
fn may_stand(front: &FrontRequest<'_>) -> bool
    ensures { IsTrue result → MayStand (message_row front.now.desc.now) front.now.sender }
{
    let sender = front.sender;
    let is_answered = sender.interface == WL_DISPLAY_INTERFACE
        || sender.interface == WL_REGISTRY_INTERFACE;
    !is_answered && sender.version >= front.desc.since
}

/// The bytes of the arguments of the request at the front, if it is complete and may be handed out where it stands.
fn waiting_payload<'s, T: Drop>(
    socket: &'s BufferedSocket<T>,
    front: &FrontRequest<'_>,
) -> Option<&'s [u8]>
    ensures { IfSome result (λ bytes. MayStand (message_row front.now.desc.now) front.now.sender
        × IsWhole socket.now.incoming.bytes × (bytes.now ≡ payload_of socket.now.incoming.bytes)) }
{
    if !may_stand(front) {
        return None;
    }
    let message = socket.front()?;
    Some(message.split_at(8).1)
}

/// Puts the arguments of the request at the front into `args`, and makes the object that it makes. Returns that object, and how
/// many tokens are the request's. `None` says that the request cannot be handed out where it stands; so it is with one that passes
/// the limit of objects. Then no object is made, and what is in `args` is not said.
#[inline(always)]
fn put_waiting<T: Drop, U: Drop>(
    client: ClientId,
    limit: Option<u32>,
    objects: &mut ClientObjects<U>,
    socket: &BufferedSocket<T>,
    front: &FrontRequest<'_>,
    args: &mut Args<ObjectId>,
) -> Option<(Option<ObjectId>, usize)>
    ensures put { MatchOption result (objects_of objects.new ≡ objects_of objects.old)
        (λ x. IsPut client limit (objects_of objects.old) socket.now front.now (objects_of objects.new) args.new.items x.0 x.1) }
    ensures registries { objects.new.registries ≡ objects.old.registries }
{
    let payload = waiting_payload(socket, front)?;
    put_arguments(
        client,
        limit,
        front.sender.version,
        front.desc,
        objects,
        payload,
        socket.received_tokens(),
        args,
    )
}

impl<T: Transport + Drop, U: Drop, C: Drop> Client<T, U, C> {
    /// Hands the request at the front out into `action`. It does so only if `action` is a request too, and the request at the
    /// front is complete, with its descriptors, nothing is wrong with it, and there is memory for it. Returns whether it did. If not,
    /// nothing is changed but the arguments of `action`.
    #[inline(always)]
    pub fn hand_out_in_place<G: GlobalHandler<C> + Drop>(
        &mut self,
        around: &Surroundings<'_, G>,
        reading: &mut Reading,
        front: &FrontRequest<'_>,
        action: &mut Action,
    ) -> bool
        requires live { Live self.old.part }
        requires front { IsFront around.now.protocol.now self.old.part.store self.old.part.link front.now }
        ensures handles { MatchBool result
            (HandlesMessage T.sends T.receives (around_of G.views around.now) self.old reading.old (Acts (handed action.new)) self.new reading.new)
            ((self.new ≡ self.old) × (reading.new ≡ reading.old)) }
        ensures times { self.new.times ≡ self.old.times }
        ensures numbered { IsNumbered (Some self.old) → IsNumbered (Some self.new) }
    {
        let Action::Request {
            sender,
            opcode,
            args,
            is_destructor,
            created,
        } = action
        else {
            return false;
        };
        let put = put_waiting(
            around.client,
            around.object_limit,
            &mut self.objects,
            &self.socket,
            front,
            args,
        );
        let Some((made, tokens)) = put else {
            return false;
        };
        let kept = front.sender;
        let id = ObjectId::from_parts(front.number, kept.serial, around.client, kept.interface);
        self.action
            .open_request(id, front.desc.is_destructor, &made);
        self.socket.skip_message(tokens);
        reading.read = reading.read.saturating_add(1);
        *sender = id;
        *opcode = front.opcode;
        *is_destructor = front.desc.is_destructor;
        *created = made;
        true
    }
}
