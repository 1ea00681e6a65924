//! Look-ups of globals. None of them changes the server.

ghost use Rattle.std.specs.Prelude.{◌≡◌, MatchResult, Some};
ghost use Rattle.wl_server_client.specs.Globals.{disabled};
ghost use Rattle.wl_server_model.specs.Lookups.{global_info_by, handler_of, name_for};
ghost use Rattle.wl_server_model.specs.Next.{NextGlobal, NextGlobalIsGiven};

use crate::backend::Backend;
use crate::globals::next_name;
use wl_server_client::error::InvalidId;
use wl_server_client::globals::global_in;
use wl_server_client::globals::handler::GlobalHandler;
use wl_server_client::ids::client_id::ClientId;
use wl_server_client::ids::global_id::{GlobalId, GlobalInfo};

impl<T: Drop, U: Drop, G: Drop, C: Drop> Backend<T, U, G, C> {
    /// The id that the next `create_global` gives, if it is not refused for its interface, its version or want of memory.
    /// `None` if no name or no serial is left. So a program can decide who may see a global before there is one.
    ///
    /// It looks for the name as `create_global` does, and allocates no memory. The answer holds until a global is created or
    /// removed, or `keep_global_names` is called.
    pub fn next_global_id(&self) -> Option<GlobalId>
        ensures next { NextGlobal self.now.server.offer.globals result }
        ensures given { NextGlobalIsGiven self.now.server.offer.table self.now.server.offer.globals result }
    {
        if self.last_global == u64::MAX {
            return None;
        }
        let name = next_name(&self.globals, self.keeps_names)?;
        Some(GlobalId::from_parts(name, self.last_global + 1))
    }

    /// What the global offers. A disabled global is found, too.
    ///
    /// It stands for `wayland_backend::server::Handle::global_info`. The error is `InvalidId` if the server does not have
    /// the global.
    pub fn global_info(&self, id: &GlobalId) -> Result<GlobalInfo, InvalidId>
        ensures { MatchResult result (λ info. global_info_by self.now.server id.now ≡ Some info)
            (λ _. global_info_by self.now.server id.now ≡ None) }
    {
        match global_in(&self.globals, id) {
            Some(global) => Ok(GlobalInfo {
                interface: global.interface,
                version: global.version,
                disabled: global.value.is_disabled,
            }),
            None => Err(InvalidId),
        }
    }

    /// The handler of the global. A disabled global is found, too.
    ///
    /// It stands for `wayland_backend::server::Handle::get_global_handler`. The error is `InvalidId` if the server does
    /// not have the global.
    pub fn get_global_handler(&self, id: &GlobalId) -> Result<&G, InvalidId>
        ensures { MatchResult result (λ handler. handler_of self.now.server id.now ≡ Some handler.now)
            (λ _. handler_of self.now.server id.now ≡ None) }
    {
        match global_in(&self.globals, id) {
            Some(global) => Ok(&global.value.handler),
            None => Err(InvalidId),
        }
    }
}

impl<T: Drop, U: Drop, G: GlobalHandler<C> + Drop, C: Drop> Backend<T, U, G, C> {
    /// The name of the global for a client.
    ///
    /// It stands for `wayland_backend::server::Handle::global_name`. It is `None` if the client is not stored or may not
    /// see the global, or if the server does not have the global. A disabled global is found, too.
    pub fn global_name(&self, id: &GlobalId, client: &ClientId) -> Option<u32>
        ensures { result ≡ name_for self.now.server G.views id.now client.now }
    {
        let client_data = &self.client(client)?.data;
        let global = global_in(&self.globals, id)?;
        global
            .value
            .handler
            .can_view(client, client_data, id)
            .then_some(id.name())
    }
}
