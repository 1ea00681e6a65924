//! Lists in memory that the host lends.

ghost use Rattle.std.specs.Prelude.{◌≡◌};
ghost use Rattle.wl_host.specs.Lists.{next_count, room_for, with_next};

use wl_flat::status::Status;

/// Writes the item behind those that were found before, if there is room.
pub fn put_next<T: Copy>(lent: &mut [T], found: &mut usize, item: T)
    ensures list { lent.new ≡ with_next lent.old found.old item }
    ensures found { found.new ≡ next_count found.old }
{
    if *found < lent.len() {
        lent[*found] = item;
    }
    *found = found.saturating_add(1);
}

/// The status of a list of so many items in memory with room for so many.
pub fn room_for(found: usize, room: usize) -> Status
    ensures { result ≡ room_for found room }
{
    if found > room {
        Status::TooSmall
    } else {
        Status::Ok
    }
}
