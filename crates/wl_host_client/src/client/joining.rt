//! Single interfaces that join a client's table.

ghost use Rattle.std.specs.Prelude.{◌≡◌, []};
ghost use Rattle.wl_host_client.specs.Client.{ConservesClient};
ghost use Rattle.wl_host_client.specs.Tables.{JoinsClient};

use super::Client;
use wl_flat::extending::ExtensionFault;
use wl_flat::joining::{join_others, not_one, only};
use wl_flat::rows::{Rows, interfaces_of};

impl Client {
    /// Takes one whole interface into the table, and answers its number, as `Server::join_interface` does. But where a row of its
    /// name differs, it is another interface of that name, which has a row of its own: under the name with an apostrophe behind it,
    /// or with two, and so on. It is the first of these rows that agrees, or a new one.
    pub fn join_interface(&mut self, rows: &Rows) -> Result<u32, ExtensionFault>
        ensures call { JoinsClient rows.now self.old.core result self.new.core }
        ensures beside { self.new ≡ record self.old { core = self.new.core } }
        ensures descriptors { ConservesClient self.old [] [] self.new }
    {
        let alloc = *self.notes.allocator();
        let interfaces = interfaces_of(alloc, rows)?;
        let Some(said) = only(interfaces) else {
            return Err(not_one());
        };
        join_others(alloc, &mut self.core, said)
    }
}
