//! Errors that are posted on objects.

ghost use Rattle.std.specs.Prelude.{◌≡◌, IsSome, true, false, Some};
ghost use Rattle.wl_link.specs.Link.{Wrote};
ghost use Rattle.wl_link.specs.Puts.{FlushesOut};
ghost use Rattle.wl_server_client.specs.NoteTimes.{IsNumbered, NotesInTime};
ghost use Rattle.wl_server_client.specs.Inside.Carried.{IsCarried};
ghost use Rattle.wl_server_client.specs.Inside.Client.{Does};
ghost use Rattle.wl_server_client.specs.Errors.{error_messages, posts, PostsError};
ghost use Rattle.wl_server_client.specs.Part.{named, with_link};
ghost use Rattle.wl_server_client.specs.Inside.Puts.{Puts};
ghost use Rattle.wl_server_client.specs.Posted.{PostsOn};
ghost use Rattle.wl_server_client.specs.Telling.{core_of, error_message};

use crate::client::Client;
use crate::events::own_events::{is_out_of_memory, put_error};
use crate::ids::object_id::ObjectId;
use crate::notes::DisconnectReason;
use crate::notes::queues::NoteNumbers;
use crate::objects::named_in;
use crate::posted_errors::posted_error;
use wl_link::Transport;
use wl_wire::{CString, IoFault, Protocol};

impl<T: Transport + Drop, U: Drop, C: Drop> Client<T, U, C> {
    /// Posts an error on an object, and kills the client.
    ///
    /// The client is told of the error if it is live and the object is there. Then what waits is flushed, also if that
    /// failed. Then the client is killed: for the error, or with the reason `ConnectionClosed` if it could not be told.
    /// If there is no memory for the texts of the error, nothing is told or flushed, and the client is killed with the
    /// reason `ConnectionClosed`. Returns whether memory ran out.
    pub fn tell_error_and_kill(
        &mut self,
        protocol: &Protocol,
        numbers: &mut NoteNumbers,
        id: &ObjectId,
        code: u32,
        text: CString,
    ) -> bool
        ensures carried { IsCarried T.sends (posts protocol.now (core_of self.old.part) id.now code text) self.old result self.new }
        ensures exactly { PostsOn T.sends self.old.part id.now code text result self.new.part }
        ensures in_time { NotesInTime self.old.times numbers.old self.new.times numbers.new }
        ensures numbered { IsNumbered (Some self.old) → IsNumbered (Some self.new) }
    {
        let alloc = self.alloc();
        if self.is_killed {
            return self.flush_dropped();
        }
        match posted_error(alloc, protocol, id, code, &text) {
            Ok(error) => {
                let wrote = self.put_posted(id, code, text);
                let lacked = self.flush_dropped();
                let refused = self.kill_unless_written(numbers, wrote);
                self.kill(numbers, DisconnectReason::ProtocolError(error));
                refused || lacked
            }
            Err(_) => self.kill_unless_written(numbers, Err(IoFault::OutOfMemory)),
        }
    }

    /// Posts an error on an object, as the program asks. A null id is of no object, and nothing is done. Returns whether
    /// memory ran out.
    pub fn post_error(
        &mut self,
        protocol: &Protocol,
        numbers: &mut NoteNumbers,
        id: &ObjectId,
        code: u32,
        text: CString,
    ) -> bool
        ensures does { Does self.old (λ p did q. PostsError T.sends protocol.now p id.now code text result did q) self.new }
        ensures exactly { PostsOn T.sends self.old.part id.now code text result self.new.part }
        ensures in_time { NotesInTime self.old.times numbers.old self.new.times numbers.new }
        ensures numbered { IsNumbered (Some self.old) → IsNumbered (Some self.new) }
    {
        if id.is_null() {
            return false;
        }
        self.tell_error_and_kill(protocol, numbers, id, code, text)
    }

    /// Tells the live client of an error on the object, if that is there.
    fn put_posted(&mut self, id: &ObjectId, code: u32, text: CString) -> Result<(), IoFault>
        requires { self.old.part.is_killed ≡ false }
        ensures put { Puts T.sends self.old.part.link (error_messages (core_of self.old.part) id.now code text) result self.new.part.link }
        ensures wrote { IsSome (named self.old.part.store id.now) → Wrote T.sends self.old.part.link (error_message id.now.number code text).message result self.new.part.link }
        ensures rest { self.new ≡ record self.old { part = with_link self.old.part self.new.part.link } }
    {
        let alloc = self.alloc();
        if named_in(&self.objects.map, id).is_none() {
            return Ok(());
        }
        put_error(alloc, &mut self.socket, id.protocol_id(), code, text)
    }

    /// Flushes what waits. A fault of that is dropped. Returns whether memory ran out.
    fn flush_dropped(&mut self) -> bool
        ensures flushed { (es : _) × FlushesOut T.sends true self.old.part.link es result self.new.part.link }
        ensures rest { self.new ≡ record self.old { part = with_link self.old.part self.new.part.link } }
    {
        is_out_of_memory(self.socket.flush())
    }
}
