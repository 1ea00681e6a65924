//! Laws of ids: two are equal if all their parts are equal, and only then.

ghost use Rattle.std.specs.Prelude.{◌≡◌, ◌↔◌, IsTrue};

use crate::ids::client_id::ClientId;
use crate::ids::global_id::GlobalId;
use crate::ids::object_id::ObjectId;

/// Two ids of objects are equal if all their parts are equal, and only then.
pub fn object_ids_are_equal_by_all_parts(a: &ObjectId, b: &ObjectId) -> bool
    ensures { IsTrue result ↔ (a.now ≡ b.now) }
{
    a == b
}

/// Two ids of clients are equal if both their parts are equal, and only then.
pub fn client_ids_are_equal_by_all_parts(a: &ClientId, b: &ClientId) -> bool
    ensures { IsTrue result ↔ (a.now ≡ b.now) }
{
    a == b
}

/// Two ids of globals are equal if both their parts are equal, and only then.
pub fn global_ids_are_equal_by_all_parts(a: &GlobalId, b: &GlobalId) -> bool
    ensures { IsTrue result ↔ (a.now ≡ b.now) }
{
    a == b
}
