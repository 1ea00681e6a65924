//! The objects of a client's session.

ghost use Rattle.std.specs.Prelude.{IsSome, None, Ok, [], ◌≡◌, ◌≢◌, option_map};
ghost use Rattle.wl_c.specs.Calls.{Did, Found};
ghost use Rattle.wl_client.specs.ByNumber.{object_at};
ghost use Rattle.wl_client.specs.Objects.{info_of, user_data_of};
ghost use Rattle.wl_host_client.specs.Client.{ConservesClient, Destroys, GivesData, GivesUp, Reclaims, flat_info};
ghost use Rattle.wl_flat.specs.Status.{found};
ghost use Rattle.wl_flat.specs.Flat.{flat_proxy, proxy_of};
ghost use Rattle.wl_flat.specs.declared.status.Status.TheVariants as status;
ghost use Rattle.wl_wire.specs.Table.{display_id};

use super::place::ClientPlace;
use crate::answer::write_answer;
use std::alloc::Global;
use wl_host::{FlatObjectId, FlatObjectInfo, Status};

/// Writes the id of the display.
#[unsafe(no_mangle)]
pub extern "C" fn nb_client_display(
    alloc: Global,
    place: &mut ClientPlace,
    object: &mut FlatObjectId,
) -> u32
    ensures none { place.old.kept.held ≡ None → (result ≡ 1) × (place.new.kept.held ≡ None) × (object.new ≡ object.old) }
    ensures kept { place.new.kept.held ≡ place.old.kept.held }
    ensures unwritten { result ≢ 0 → object.new ≡ object.old }
    ensures answer { Found place.old.kept.held result object.old object.new (λ s answer. answer ≡ Ok (flat_proxy (record { number = 1; serial = 0; interface = display_id }))) }
{
    let Some(session) = place.take(alloc) else {
        return Status::NoSession.code();
    };
    let answer = session.display();
    place.put(session);
    write_answer(answer, object)
}

/// Writes the id of the object that has this number.
#[unsafe(no_mangle)]
pub extern "C" fn nb_client_object_for_protocol_id(
    alloc: Global,
    place: &mut ClientPlace,
    number: u32,
    object: &mut FlatObjectId,
) -> u32
    ensures none { place.old.kept.held ≡ None → (result ≡ 1) × (place.new.kept.held ≡ None) × (object.new ≡ object.old) }
    ensures kept { place.new.kept.held ≡ place.old.kept.held }
    ensures unwritten { result ≢ 0 → object.new ≡ object.old }
    ensures answer { Found place.old.kept.held result object.old object.new (λ s answer. answer ≡ found (option_map flat_proxy (object_at s.core.session number))) }
{
    let Some(session) = place.take(alloc) else {
        return Status::NoSession.code();
    };
    let answer = session.object_for_protocol_id(number);
    place.put(session);
    write_answer(answer, object)
}

/// Writes the number, the interface and the version of an object.
#[unsafe(no_mangle)]
pub extern "C" fn nb_client_object_info(
    alloc: Global,
    place: &mut ClientPlace,
    object: &FlatObjectId,
    info: &mut FlatObjectInfo,
) -> u32
    ensures none { place.old.kept.held ≡ None → (result ≡ 1) × (place.new.kept.held ≡ None) × (info.new ≡ info.old) }
    ensures kept { place.new.kept.held ≡ place.old.kept.held }
    ensures unwritten { result ≢ 0 → info.new ≡ info.old }
    ensures answer { Found place.old.kept.held result info.old info.new (λ s answer. answer ≡ found (flat_info (info_of s.core.session (proxy_of object.now)))) }
{
    let Some(session) = place.take(alloc) else {
        return Status::NoSession.code();
    };
    let answer = session.object_info(object);
    place.put(session);
    write_answer(answer, info)
}

/// Writes the program's data of an object.
#[unsafe(no_mangle)]
pub extern "C" fn nb_client_object_data(
    alloc: Global,
    place: &mut ClientPlace,
    object: &FlatObjectId,
    user_data: &mut u64,
) -> u32
    ensures none { place.old.kept.held ≡ None → (result ≡ 1) × (place.new.kept.held ≡ None) × (user_data.new ≡ user_data.old) }
    ensures kept { place.new.kept.held ≡ place.old.kept.held }
    ensures unwritten { result ≢ 0 → user_data.new ≡ user_data.old }
    ensures answer { Found place.old.kept.held result user_data.old user_data.new (λ s answer. answer ≡ found (user_data_of s.core.session (proxy_of object.now))) }
{
    let Some(session) = place.take(alloc) else {
        return Status::NoSession.code();
    };
    let answer = session.object_data(object);
    place.put(session);
    write_answer(answer, user_data)
}

/// Gives an object other data.
#[unsafe(no_mangle)]
pub extern "C" fn nb_client_set_object_data(
    alloc: Global,
    place: &mut ClientPlace,
    object: &FlatObjectId,
    user_data: u64,
) -> u32
    ensures none { place.old.kept.held ≡ None → (result ≡ 1) × (place.new.kept.held ≡ None) }
    ensures stays { IsSome place.old.kept.held → IsSome place.new.kept.held }
    ensures call { Did place.old.kept.held result place.new.kept.held (λ s status t. GivesData s.core (proxy_of object.now) user_data status t.core) }
    ensures beside { Did place.old.kept.held result place.new.kept.held (λ s status t. t ≡ record s { core = t.core }) }
    ensures descriptors { Did place.old.kept.held result place.new.kept.held (λ s status t. ConservesClient s [] [] t) }
{
    let Some(mut session) = place.take(alloc) else {
        return Status::NoSession.code();
    };
    let status = session.set_object_data(object, user_data);
    place.put(session);
    status.code()
}

/// Destroys an object that the program lets go without a request.
#[unsafe(no_mangle)]
pub extern "C" fn nb_client_destroy_object(
    alloc: Global,
    place: &mut ClientPlace,
    object: &FlatObjectId,
) -> u32
    ensures none { place.old.kept.held ≡ None → (result ≡ 1) × (place.new.kept.held ≡ None) }
    ensures stays { IsSome place.old.kept.held → IsSome place.new.kept.held }
    ensures call { Did place.old.kept.held result place.new.kept.held (λ s status t. Destroys s (proxy_of object.now) status t) }
    ensures descriptors { Did place.old.kept.held result place.new.kept.held (λ s status t. ConservesClient s [] [] t) }
{
    let Some(mut session) = place.take(alloc) else {
        return Status::NoSession.code();
    };
    let status = session.destroy_object(object);
    place.put(session);
    status.code()
}

/// Gives an object up for good: no note tells of it.
#[unsafe(no_mangle)]
pub extern "C" fn nb_client_give_up_object(
    alloc: Global,
    place: &mut ClientPlace,
    object: &FlatObjectId,
) -> u32
    ensures none { place.old.kept.held ≡ None → (result ≡ 1) × (place.new.kept.held ≡ None) }
    ensures stays { IsSome place.old.kept.held → IsSome place.new.kept.held }
    ensures call { Did place.old.kept.held result place.new.kept.held (λ s status t. GivesUp s (proxy_of object.now) status t) }
    ensures descriptors { Did place.old.kept.held result place.new.kept.held (λ s status t. ConservesClient s [] [] t) }
{
    let Some(mut session) = place.take(alloc) else {
        return Status::NoSession.code();
    };
    let status = session.give_up_object(object);
    place.put(session);
    status.code()
}

/// Takes an object out that both sides have given up.
#[unsafe(no_mangle)]
pub extern "C" fn nb_client_reclaim(
    alloc: Global,
    place: &mut ClientPlace,
    object: &FlatObjectId,
) -> u32
    ensures none { place.old.kept.held ≡ None → (result ≡ 1) × (place.new.kept.held ≡ None) }
    ensures stays { IsSome place.old.kept.held → IsSome place.new.kept.held }
    ensures call { Did place.old.kept.held result place.new.kept.held (λ s status t. Reclaims s.core (proxy_of object.now) status t.core) }
    ensures beside { Did place.old.kept.held result place.new.kept.held (λ s status t. t ≡ record s { core = t.core }) }
    ensures descriptors { Did place.old.kept.held result place.new.kept.held (λ s status t. ConservesClient s [] [] t) }
{
    let Some(mut session) = place.take(alloc) else {
        return Status::NoSession.code();
    };
    let status = session.reclaim(object);
    place.put(session);
    status.code()
}
