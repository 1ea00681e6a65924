//! Sends what waits to be sent.

ghost use Rattle.std.specs.Prelude.{◌≡◌};
ghost use Rattle.wl_client.specs.Accounts.{Calls};
ghost use Rattle.wl_client.specs.Finish.{SessionFlushed};
ghost use Rattle.wl_client.specs.Plain.Calls.{FlushesSession};
ghost use Rattle.wl_client.specs.Steps.{CallOf, refused_flush};
ghost use Rattle.wl_client.specs.declared.step.Reply.TheVariants as reply;
ghost use Rattle.wl_client.specs.declared.step.Step.TheVariants as step;

use crate::backend::Backend;
use crate::error::{FlushError, WaylandError};
use wl_link::Transport;
use wl_wire::IoFault;

impl<T: Transport + Drop, U: Drop> Backend<T, U> {
    /// Sends what waits to be sent, as far as the transport takes it.
    ///
    /// It stands for `wayland_backend::client::Backend::flush`. The answer is `Ok` in these cases:
    ///
    /// - All bytes were sent. If there were more than 28 tokens for each byte, the tokens beyond that number still wait. A
    ///   *token* stands for a file descriptor.
    /// - The transport answered 0 to a send. Then the rest still waits, but the tokens that this send was offered are lost.
    ///
    /// The errors are:
    ///
    /// - `Failed` if the session has an error, or gets one now. It gets one by a fault of the transport that is neither
    ///   `WouldBlock` nor `OutOfMemory`;
    /// - `WouldBlock` if the transport can send no more now. What was not sent still waits;
    /// - `OutOfMemory` if the transport had no memory. What was not sent still waits.
    pub fn flush(&mut self) -> Result<(), FlushError>
        ensures call { Calls (CallOf T.sends T.receives) self.old step.Flush (reply.Flush result) self.new }
        ensures plain { FlushesSession T.sends self.old.session result self.new.session }
        ensures flushed { SessionFlushed T.sends self.old.session result self.new.session }
        ensures refused { self.new.refused ≡ refused_flush result }
    {
        self.send_waiting()
    }

    /// Sends what waits to be sent, if the session has no error. A fault of the transport is stored, if no later send can
    /// mend it.
    fn send_waiting(&mut self) -> Result<(), FlushError>
        ensures flushed { SessionFlushed T.sends self.old.session result self.new.session }
        ensures refused { self.new.refused ≡ refused_flush result }
    {
        self.refused = false;
        if self.error.is_some() {
            return Err(FlushError::Failed);
        }
        let Err(fault) = self.socket.flush() else {
            return Ok(());
        };
        match fault {
            IoFault::WouldBlock => Err(FlushError::WouldBlock),
            IoFault::OutOfMemory => {
                self.refused = true;
                Err(FlushError::OutOfMemory)
            }
            _ => {
                self.error = Some(WaylandError::Io(fault));
                Err(FlushError::Failed)
            }
        }
    }
}
