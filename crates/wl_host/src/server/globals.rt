//! The globals of a server's session.

ghost use Rattle.std.specs.Prelude.{[], ◌≡◌, ◌==◌, OnErr, OnOk, not, option_map};
ghost use Rattle.wl_flat.specs.Descriptors.{Conserves};
ghost use Rattle.wl_host.specs.Server.{kept_by_server};
ghost use Rattle.wl_host.specs.Calls.{CreatesGlobal, TellsNextGlobal, flat_global_info, or_invalid, world};
ghost use Rattle.wl_host.specs.Globals.{told_all};
ghost use Rattle.wl_host.specs.Visibility.{sees};
ghost use Rattle.wl_flat.specs.Flat.{client_of, global_of};
ghost use Rattle.wl_server_model.specs.Backend.{Calls};
ghost use Rattle.wl_server_model.specs.Lookups.{global_info_by, handler_of, name_for};
ghost use Rattle.wl_server_model.specs.declared.step.Reply.TheVariants as reply;
ghost use Rattle.wl_server_model.specs.declared.step.Step.TheVariants as step;
ghost use Rattle.wl_flat.specs.declared.status.Status.TheVariants as status;

use crate::server::{HostGlobal, Server, hidden};
use wl_flat::flat::{FlatClientId, FlatGlobalId, FlatGlobalInfo, interface_number};
use wl_flat::status::Status;
use wl_wire::InterfaceId;

impl Server {
    /// Creates a global (`wl_server::Backend::create_global`). The clients that have a group in common with it see it: a bit of
    /// `groups`. But those of `hidden` do not see it, nor those from which it is hidden.
    ///
    /// An id of `hidden` need not name a client yet: `next_client_id` tells the one that the next client gets.
    ///
    /// The status is that of `wl_server::GlobalError`. Then nothing is changed.
    pub fn create_global(
        &mut self,
        interface: u32,
        version: u32,
        user_data: u64,
        groups: u64,
        hidden: &[FlatClientId],
    ) -> Result<FlatGlobalId, Status>
        ensures call { CreatesGlobal self.old.core interface version user_data groups hidden.now result self.new.core }
        ensures told { OnOk result (self.new ≡ told_all self.old self.new.core) }
        ensures refused { OnErr result (self.new ≡ record self.old { core = self.new.core }) }
        ensures descriptors { Conserves kept_by_server self.old [] [] self.new }
    {
        let hidden = hidden::clients(self.alloc(), hidden)?;
        let interface = InterfaceId(interface as usize);
        let global = HostGlobal {
            user_data,
            groups,
            hidden,
        };
        match self.core.create_global(interface, version, global) {
            Ok(id) => {
                self.tells_all();
                Ok(FlatGlobalId::new(id))
            }
            Err(error) => Err(Status::from(error)),
        }
    }

    /// A call may have told each client of a global.
    pub(crate) fn tells_all(&mut self)
        ensures { self.new ≡ told_all self.old self.old.core }
    {
        self.seats.list_all();
        self.mark();
    }

    /// The id that the next global gets (`wl_server::Backend::next_global_id`). The status is `Full` if there can be none.
    pub fn next_global_id(&self) -> Result<FlatGlobalId, Status>
        ensures { TellsNextGlobal self.now.core result }
    {
        match self.core.next_global_id() {
            Some(id) => Ok(FlatGlobalId::new(id)),
            None => Err(Status::Full),
        }
    }

    /// Announces the global no longer (`wl_server::Backend::disable_global`). If it is not there, nothing happens.
    pub fn disable_global(&mut self, global: &FlatGlobalId) -> Status
        ensures call { Calls world self.old.core (step.DisableGlobal (global_of global.now)) reply.DisableGlobal self.new.core }
        ensures beside { self.new ≡ told_all self.old self.new.core }
        ensures descriptors { Conserves kept_by_server self.old [] [] self.new }
        ensures status { result ≡ status.Ok }
    {
        self.core.disable_global(&global.id());
        self.tells_all();
        Status::Ok
    }

    /// Removes the global (`wl_server::Backend::remove_global`). If it is not there, nothing happens.
    pub fn remove_global(&mut self, global: &FlatGlobalId) -> Status
        ensures call { Calls world self.old.core (step.RemoveGlobal (global_of global.now)) reply.RemoveGlobal self.new.core }
        ensures beside { self.new ≡ told_all self.old self.new.core }
        ensures descriptors { Conserves kept_by_server self.old [] [] self.new }
        ensures status { result ≡ status.Ok }
    {
        self.core.remove_global(&global.id());
        self.tells_all();
        Status::Ok
    }

    /// Sets whether the names of globals are kept (`wl_server::Backend::keep_global_names`): as long as `keep` is not 0, a new
    /// global gets only a name that was never in use.
    pub fn keep_global_names(&mut self, keep: u32) -> Status
        ensures call { Calls world self.old.core (step.KeepGlobalNames (not (keep == 0))) reply.KeepGlobalNames self.new.core }
        ensures beside { self.new ≡ record self.old { core = self.new.core } }
        ensures descriptors { Conserves kept_by_server self.old [] [] self.new }
        ensures status { result ≡ status.Ok }
    {
        self.core.keep_global_names(keep != 0);
        Status::Ok
    }

    /// What the global offers. The status is `InvalidId` if the global is not there.
    pub fn global_info(&self, global: &FlatGlobalId) -> Result<FlatGlobalInfo, Status>
        ensures { result ≡ or_invalid (option_map flat_global_info (global_info_by self.now.core.server (global_of global.now))) }
    {
        match self.core.global_info(&global.id()) {
            Ok(info) => Ok(FlatGlobalInfo {
                interface: interface_number(info.interface),
                version: info.version,
                is_disabled: u32::from(info.disabled),
                unused: 0,
            }),
            Err(error) => Err(Status::from(error)),
        }
    }

    /// The program's data of the global. The status is `InvalidId` if the global is not there.
    pub fn global_data(&self, global: &FlatGlobalId) -> Result<u64, Status>
        ensures { result ≡ or_invalid (option_map (λ g. g.user_data) (handler_of self.now.core.server (global_of global.now))) }
    {
        match self.core.get_global_handler(&global.id()) {
            Ok(global) => Ok(global.user_data),
            Err(error) => Err(Status::from(error)),
        }
    }

    /// The name of the global for the client (`wl_server::Backend::global_name`). The status is `InvalidId` if the client is not
    /// stored or may not see the global, or if the global is not there.
    pub fn global_name(&self, global: &FlatGlobalId, client: &FlatClientId) -> Result<u32, Status>
        ensures { result ≡ or_invalid (name_for self.now.core.server sees (global_of global.now) (client_of client.now)) }
    {
        match self.core.global_name(&global.id(), &client.id()) {
            Some(name) => Ok(name),
            None => Err(Status::InvalidId),
        }
    }
}
