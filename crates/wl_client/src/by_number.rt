//! The object that a number holds.

ghost use Rattle.std.specs.Prelude.{◌≡◌};
ghost use Rattle.wl_client.specs.ByNumber.{object_at};

use crate::backend::Backend;
use crate::object_id::ObjectId;
use crate::objects::id_at;

impl<T: Drop, U: Drop> Backend<T, U> {
    /// The id of the object that has this number. `None` if the number holds none.
    ///
    /// An object that the client has destroyed has an id here, too, until it leaves its number (`keep_freed`).
    pub fn object_for_protocol_id(&self, number: u32) -> Option<ObjectId>
        ensures { result ≡ object_at self.now.session number }
    {
        match self.objects.find(number) {
            Some(object) => Some(id_at(number, object)),
            None => None,
        }
    }
}
