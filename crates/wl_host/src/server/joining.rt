//! Single interfaces that join a server's table.

ghost use Rattle.std.specs.Prelude.{[], ◌≡◌};
ghost use Rattle.wl_flat.specs.Descriptors.{Conserves};
ghost use Rattle.wl_host.specs.Server.{kept_by_server};
ghost use Rattle.wl_host.specs.Tables.{JoinsServer};

use crate::server::Server;
use wl_flat::extending::ExtensionFault;
use wl_flat::joining::{join, not_one, only};
use wl_flat::rows::{Rows, interfaces_of};

impl Server {
    /// Takes one whole interface into the table, and answers the number that it has there. If the table has a row of its name, and
    /// the messages that both have are the same, it is that row: what the row lacks is appended, and its version rises to that of
    /// the interface, if that is greater. If the name is new, it is a new row, the last one.
    ///
    /// Two messages are the same if their names, the versions that have them, the types of their arguments and the interfaces that
    /// these name are, and which arguments may be null. Whether a message is a destructor is not compared: what the table has stays.
    /// So this is stricter than `extend_interfaces`: whoever is made for the interface may handle what the row allows.
    ///
    /// The number of another interface that a message names is that of the table. Where interfaces name one another, one of them can
    /// be taken in without messages first, to have its number: later it takes its messages.
    ///
    /// The error is `fault::ROW` if a row names what is not there, or if the rows are not those of one interface, and
    /// `fault::CONTRADICTS` with the first message that differs, a request before an event. It is `fault::UNKNOWN_INTERFACE`, too, if one
    /// that every table has is to get a message or a version that it lacks. The others are those of a table for what is new to it: it is
    /// in a message that the row lacks, or in the new row, or there was no memory. `interface` is always 0. After an error the table is
    /// as it was.
    pub fn join_interface(&mut self, rows: &Rows) -> Result<u32, ExtensionFault>
        ensures call { JoinsServer rows.now self.old.core result self.new.core }
        ensures beside { self.new ≡ record self.old { core = self.new.core } }
        ensures descriptors { Conserves kept_by_server self.old [] [] self.new }
    {
        let alloc = self.alloc();
        let interfaces = interfaces_of(alloc, rows)?;
        let Some(said) = only(interfaces) else {
            return Err(not_one());
        };
        join(alloc, &mut self.core, said)
    }
}
