//! Finishes an action that was handed out.

ghost use Rattle.std.specs.Prelude.{◌≡◌, Ok, Some, false};
ghost use Rattle.std.specs.Result.{result_and};
ghost use Rattle.wl_server_model.specs.Backend.{Calls};
ghost use Rattle.wl_server_model.specs.Cutting.{CallIsCut};
ghost use Rattle.wl_server_client.specs.Inside.Finishing.{lacks_finish};
ghost use Rattle.wl_server_model.specs.PartStep.{Asked, over};
ghost use Rattle.wl_server_model.specs.Plain.{EndsBind, EndsOpenRequest, ReturnsBindData, ReturnsRequestData};
ghost use Rattle.wl_server_model.specs.declared.step.Reply.TheVariants as reply;
ghost use Rattle.wl_server_model.specs.declared.step.Step.TheVariants as step;

use crate::backend::Backend;
use crate::client::stored::stored_mut;
use wl_link::Transport;
use wl_server_client::error::{FinishError, FinishRefused};
use wl_server_client::globals::handler::GlobalHandler;
use wl_server_client::ids::client_id::ClientId;

/// Whether the end of an action was refused for want of memory.
fn lacks_memory<R, D>(answer: &Result<R, FinishRefused<D>>) -> bool
    ensures { result ≡ lacks_finish (result_and answer.now (Ok tt)) }
{
    match answer {
        Ok(_) => false,
        Err(refused) => matches!(refused.error, FinishError::OutOfMemory),
    }
}

impl<T: Transport + Drop, U: Drop, G: GlobalHandler<C> + Drop, C: Drop> Backend<T, U, G, C> {
    /// Finishes the request that `next_action` handed out. The object that the request made gets this user data, if it is
    /// still there.
    ///
    /// If the request is a destructor, its sender is destroyed, if that is still there: if its number is one of the
    /// client's own, the client is told by `wl_display.delete_id` that the number is free again, and if it has user data,
    /// a note is made of its end. If the client cannot be told, it is killed with the reason `ConnectionClosed`, and the
    /// action is finished all the same.
    ///
    /// # Errors
    ///
    /// They are looked for in this order:
    ///
    /// - `InvalidId`: the client is not stored.
    /// - `NoOpenAction`: no action of the client is open.
    /// - `WrongKind`: a bind is open.
    /// - `MissingObjectData`: the request made an object, no user data are given, and the client is not killed.
    /// - `UnexpectedData`: the request made no object, and user data are given.
    /// - `OutOfMemory`: there is no memory for the note or for telling the client.
    ///
    /// An error gives the user data back and leaves the action open. Nothing else is changed, with one exception: after
    /// `OutOfMemory` a flush may have sent or dropped some of what waited for the client, and a buffer may have grown.
    pub fn finish_request(
        &mut self,
        client: &ClientId,
        user_data: Option<U>,
    ) -> Result<(), FinishRefused<Option<U>>>
        ensures call { Calls (over T.sends T.receives G.views) self.old (step.FinishRequest client.now user_data) (reply.FinishRequest result) self.new }
        ensures plain { EndsOpenRequest self.old client.now user_data result self.new }
        ensures cutting { CallIsCut (over T.sends T.receives G.views) self.old.server (Asked (step.FinishRequest client.now user_data) (reply.FinishRequest result)) self.new.refused self.new.server }
    {
        match self.finish_request_returning(client, user_data) {
            Ok(_) => Ok(()),
            Err(refused) => Err(refused),
        }
    }

    /// Finishes the request that `next_action` handed out, as `finish_request` does, and tells what became of the user data.
    ///
    /// It returns the data if the request made an object that is no longer there. Else they are the object's, and it returns
    /// `None`. The errors are those of `finish_request`.
    pub fn finish_request_returning(
        &mut self,
        client: &ClientId,
        user_data: Option<U>,
    ) -> Result<Option<U>, FinishRefused<Option<U>>>
        ensures call { Calls (over T.sends T.receives G.views) self.old (step.FinishRequest client.now user_data) (reply.FinishRequest (result_and result (Ok tt))) self.new }
        ensures plain { EndsOpenRequest self.old client.now user_data (result_and result (Ok tt)) self.new }
        ensures cutting { CallIsCut (over T.sends T.receives G.views) self.old.server (Asked (step.FinishRequest client.now user_data) (reply.FinishRequest (result_and result (Ok tt)))) self.new.refused self.new.server }
        ensures data { ReturnsRequestData self.old client.now user_data result self.new }
    {
        self.refused = false;
        let Some(stored) = stored_mut(&mut self.clients, &mut self.touched, client) else {
            let error = FinishError::InvalidId;
            return Err(FinishRefused { error, user_data });
        };
        let answer = stored.finish_request(client, &mut self.numbers, user_data);
        self.refused = lacks_memory(&answer);
        answer
    }

    /// Finishes the bind that `next_action` handed out. The object that was bound gets this user data, if it is still
    /// there. It allocates no memory.
    ///
    /// # Errors
    ///
    /// They are looked for in this order:
    ///
    /// - `InvalidId`: the client is not stored.
    /// - `NoOpenAction`: no action of the client is open.
    /// - `WrongKind`: a request is open.
    ///
    /// An error gives the user data back and changes nothing.
    pub fn finish_bind(&mut self, client: &ClientId, user_data: U) -> Result<(), FinishRefused<U>>
        ensures call { Calls (over T.sends T.receives G.views) self.old (step.FinishBind client.now user_data) (reply.FinishBind result) self.new }
        ensures plain { EndsBind self.old client.now user_data result self.new }
        ensures cutting { CallIsCut (over T.sends T.receives G.views) self.old.server (Asked (step.FinishBind client.now user_data) (reply.FinishBind result)) self.new.refused self.new.server }
    {
        match self.finish_bind_returning(client, user_data) {
            Ok(_) => Ok(()),
            Err(refused) => Err(refused),
        }
    }

    /// Finishes the bind that `next_action` handed out, as `finish_bind` does, and tells what became of the user data.
    ///
    /// It returns the data if the object that was bound is no longer there. Else they are the object's, and it returns
    /// `None`. The errors are those of `finish_bind`. It allocates no memory.
    pub fn finish_bind_returning(
        &mut self,
        client: &ClientId,
        user_data: U,
    ) -> Result<Option<U>, FinishRefused<U>>
        ensures call { Calls (over T.sends T.receives G.views) self.old (step.FinishBind client.now user_data) (reply.FinishBind (result_and result (Ok tt))) self.new }
        ensures plain { EndsBind self.old client.now user_data (result_and result (Ok tt)) self.new }
        ensures cutting { CallIsCut (over T.sends T.receives G.views) self.old.server (Asked (step.FinishBind client.now user_data) (reply.FinishBind (result_and result (Ok tt)))) self.new.refused self.new.server }
        ensures data { ReturnsBindData self.old client.now user_data result self.new }
    {
        self.refused = false;
        let Some(stored) = stored_mut(&mut self.clients, &mut self.touched, client) else {
            let error = FinishError::InvalidId;
            return Err(FinishRefused { error, user_data });
        };
        stored.finish_bind(user_data)
    }
}
