//! More interfaces for a server that runs, and more messages of those that it has.

ghost use Rattle.std.specs.Prelude.{◌≡◌};
ghost use Rattle.wl_wire.specs.Table.{AnswersExtension, AnswersGrowth, IsAcceptedTable, LongerRow, NewRows, after_extension, extension_of, grown, interface_rows, refused_growth};
ghost use Rattle.wl_server_model.specs.Backend.{IsGrowth};
ghost use Rattle.wl_server_client.specs.Globals.{with_table};
ghost use Rattle.wl_server_model.specs.PartStep.{over};
ghost use Rattle.wl_server_model.specs.Plain.Calls.{AddsInterfaces, ExtendsInterface};

use crate::backend::Backend;
use wl_link::Transport;
use wl_server_client::globals::handler::GlobalHandler;
use wl_wire::{Interface, InterfaceId, MessageDesc, TableError};

/// Whether the table refused to grow for want of memory.
fn lacks_memory(answer: &Result<(), TableError>) -> bool
    ensures { result ≡ refused_growth answer.now }
{
    matches!(answer, Err(TableError::OutOfMemory))
}

impl<T: Transport + Drop, U: Drop, G: GlobalHandler<C> + Drop, C: Drop> Backend<T, U, G, C> {
    /// Appends more interfaces to the server's table, all of them or none, as `Protocol::extend` does. The interfaces that
    /// are there keep their ids, no client is told anything, and nothing else of the server changes. After an error the table
    /// is as it was.
    pub fn add_interfaces(&mut self, interfaces: Vec<Interface>) -> Result<(), TableError>
        ensures call { IsGrowth (over T.sends T.receives G.views) self.old (NewRows (interface_rows interfaces.items)) result self.new }
        ensures plain { AddsInterfaces self.old (interface_rows interfaces.items) result self.new }
        ensures answer { AnswersGrowth self.old.server.offer.table (interface_rows interfaces.items) result }
        ensures server { self.new.server ≡ record self.old.server {
          offer = with_table self.old.server.offer (grown self.old.server.offer.table (interface_rows interfaces.items) result);
        } }
        ensures accepted { IsAcceptedTable self.new.server.offer.table }
    {
        let answer = self.protocol.extend(interfaces);
        self.refused = lacks_memory(&answer);
        answer
    }

    /// Appends more requests and events to those of an interface that the server's table has, all of them or none, and
    /// raises its version, as `Protocol::extend_row` does. What is there keeps its opcodes, no client is told anything, and
    /// nothing else of the server changes: a global keeps its version. After an error the table is as it was.
    ///
    /// What was received and is not read yet is read by the longer row: a request whose opcode was outside the row, and so
    /// malformed, is then judged as any other. If its `since` is above its object's version, it still ends its client.
    pub fn extend_interface(
        &mut self,
        interface: InterfaceId,
        version: u32,
        requests: Vec<MessageDesc>,
        events: Vec<MessageDesc>,
    ) -> Result<(), TableError>
        ensures call { IsGrowth (over T.sends T.receives G.views) self.old
            (LongerRow (extension_of interface version requests.items events.items)) result self.new }
        ensures plain { ExtendsInterface self.old (extension_of interface version requests.items events.items) result self.new }
        ensures answer { AnswersExtension self.old.server.offer.table (extension_of interface version requests.items events.items) result }
        ensures server { self.new.server ≡ record self.old.server {
          offer = with_table self.old.server.offer
              (after_extension self.old.server.offer.table (extension_of interface version requests.items events.items) result);
        } }
        ensures accepted { IsAcceptedTable self.new.server.offer.table }
    {
        let answer = self
            .protocol
            .extend_row(interface, version, requests, events);
        self.refused = lacks_memory(&answer);
        answer
    }
}
