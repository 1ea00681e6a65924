//! The objects of a server's clients.

ghost use Rattle.std.specs.Prelude.{Err, IsSome, MatchOption, None, [], map, option_map, ◌≡◌, ◌≢◌};
ghost use Rattle.wl_c.specs.Calls.{Did, Found, Gave, Told};
ghost use Rattle.wl_host.specs.Calls.{CreatesObject, DestroysObject, SetsObjectData, flat_object_info, interface_of, or_invalid};
ghost use Rattle.wl_host.specs.Clients.{told_at};
ghost use Rattle.wl_flat.specs.Descriptors.{Conserves};
ghost use Rattle.wl_flat.specs.Flat.{client_of, flat_resource, resource_of};
ghost use Rattle.wl_host.specs.Lists.{Lists};
ghost use Rattle.wl_host.specs.Server.{kept_by_server};
ghost use Rattle.wl_flat.specs.declared.status.Status.TheVariants as status;
ghost use Rattle.wl_server_model.specs.Lookups.{object_data_of, object_for_number, object_info_of, objects_of_client};

use super::place::ServerPlace;
use crate::answer::write_answer;
use std::alloc::Global;
use wl_host::{FlatClientId, FlatObjectId, FlatObjectInfo, Status};

/// Makes an object with an id of the server's.
#[unsafe(no_mangle)]
pub extern "C" fn nb_server_create_object(
    alloc: Global,
    place: &mut ServerPlace,
    client: &FlatClientId,
    interface: u32,
    version: u32,
    has_data: u32,
    user_data: u64,
    object: &mut FlatObjectId,
) -> u32
    ensures none { place.old.kept.held ≡ None → (result ≡ 1) × (place.new.kept.held ≡ None) × (object.new ≡ object.old) }
    ensures stays { IsSome place.old.kept.held → IsSome place.new.kept.held }
    ensures unwritten { result ≢ 0 → object.new ≡ object.old }
    ensures missing { Gave place.old.kept.held result object.old object.new place.new.kept.held (λ s answer t. has_data ≡ 0 → (answer ≡ Err status.MissingData) × (t ≡ s)) }
    ensures created { Gave place.old.kept.held result object.old object.new place.new.kept.held (λ s answer t. has_data ≢ 0 → CreatesObject s.core client.now interface version user_data answer t.core) }
    ensures beside { Gave place.old.kept.held result object.old object.new place.new.kept.held (λ s answer t. t ≡ record s { core = t.core }) }
    ensures descriptors { Gave place.old.kept.held result object.old object.new place.new.kept.held (λ s answer t. Conserves kept_by_server s [] [] t) }
{
    let Some(mut session) = place.take(alloc) else {
        return Status::NoSession.code();
    };
    let answer = session.create_object(client, interface, version, has_data, user_data);
    place.put(session);
    write_answer(answer, object)
}

/// Destroys an object.
#[unsafe(no_mangle)]
pub extern "C" fn nb_server_destroy_object(
    alloc: Global,
    place: &mut ServerPlace,
    object: &FlatObjectId,
) -> u32
    ensures none { place.old.kept.held ≡ None → (result ≡ 1) × (place.new.kept.held ≡ None) }
    ensures stays { IsSome place.old.kept.held → IsSome place.new.kept.held }
    ensures call { Did place.old.kept.held result place.new.kept.held (λ s status t. DestroysObject s.core object.now status t.core) }
    ensures beside { Did place.old.kept.held result place.new.kept.held (λ s status t. t ≡ told_at s t.core object.now.client.slot) }
    ensures descriptors { Did place.old.kept.held result place.new.kept.held (λ s status t. Conserves kept_by_server s [] [] t) }
{
    let Some(mut session) = place.take(alloc) else {
        return Status::NoSession.code();
    };
    let status = session.destroy_object(object);
    place.put(session);
    status.code()
}

/// Writes the number, the interface and the version of an object.
#[unsafe(no_mangle)]
pub extern "C" fn nb_server_object_info(
    alloc: Global,
    place: &mut ServerPlace,
    object: &FlatObjectId,
    info: &mut FlatObjectInfo,
) -> u32
    ensures none { place.old.kept.held ≡ None → (result ≡ 1) × (place.new.kept.held ≡ None) × (info.new ≡ info.old) }
    ensures kept { place.new.kept.held ≡ place.old.kept.held }
    ensures unwritten { result ≢ 0 → info.new ≡ info.old }
    ensures answer { Found place.old.kept.held result info.old info.new (λ s answer. answer ≡ or_invalid (option_map flat_object_info (object_info_of s.core.server (resource_of object.now)))) }
{
    let Some(session) = place.take(alloc) else {
        return Status::NoSession.code();
    };
    let answer = session.object_info(object);
    place.put(session);
    write_answer(answer, info)
}

/// Writes the program's data of an object.
#[unsafe(no_mangle)]
pub extern "C" fn nb_server_object_data(
    alloc: Global,
    place: &mut ServerPlace,
    object: &FlatObjectId,
    user_data: &mut u64,
) -> u32
    ensures none { place.old.kept.held ≡ None → (result ≡ 1) × (place.new.kept.held ≡ None) × (user_data.new ≡ user_data.old) }
    ensures kept { place.new.kept.held ≡ place.old.kept.held }
    ensures unwritten { result ≢ 0 → user_data.new ≡ user_data.old }
    ensures answer { Found place.old.kept.held result user_data.old user_data.new (λ s answer. answer ≡ or_invalid (object_data_of s.core.server (resource_of object.now))) }
{
    let Some(session) = place.take(alloc) else {
        return Status::NoSession.code();
    };
    let answer = session.object_data(object);
    place.put(session);
    write_answer(answer, user_data)
}

/// Gives an object other data.
#[unsafe(no_mangle)]
pub extern "C" fn nb_server_set_object_data(
    alloc: Global,
    place: &mut ServerPlace,
    object: &FlatObjectId,
    user_data: u64,
) -> u32
    ensures none { place.old.kept.held ≡ None → (result ≡ 1) × (place.new.kept.held ≡ None) }
    ensures stays { IsSome place.old.kept.held → IsSome place.new.kept.held }
    ensures call { Did place.old.kept.held result place.new.kept.held (λ s status t. SetsObjectData s.core object.now user_data status t.core) }
    ensures beside { Did place.old.kept.held result place.new.kept.held (λ s status t. t ≡ record s { core = t.core }) }
    ensures descriptors { Did place.old.kept.held result place.new.kept.held (λ s status t. Conserves kept_by_server s [] [] t) }
{
    let Some(mut session) = place.take(alloc) else {
        return Status::NoSession.code();
    };
    let status = session.set_object_data(object, user_data);
    place.put(session);
    status.code()
}

/// Finds the object that has this number with a client.
#[unsafe(no_mangle)]
pub extern "C" fn nb_server_object_for_protocol_id(
    alloc: Global,
    place: &mut ServerPlace,
    client: &FlatClientId,
    interface: u32,
    number: u32,
    object: &mut FlatObjectId,
) -> u32
    ensures none { place.old.kept.held ≡ None → (result ≡ 1) × (place.new.kept.held ≡ None) × (object.new ≡ object.old) }
    ensures kept { place.new.kept.held ≡ place.old.kept.held }
    ensures unwritten { result ≢ 0 → object.new ≡ object.old }
    ensures answer { Found place.old.kept.held result object.old object.new (λ s answer. answer ≡ or_invalid (option_map flat_resource (object_for_number s.core.server (client_of client.now) (interface_of interface) number))) }
{
    let Some(session) = place.take(alloc) else {
        return Status::NoSession.code();
    };
    let answer = session.object_for_protocol_id(client, interface, number);
    place.put(session);
    write_answer(answer, object)
}

/// Lists the objects of a client. `count` has their number, also where the list is too short for them.
#[unsafe(no_mangle)]
pub extern "C" fn nb_server_objects(
    alloc: Global,
    place: &mut ServerPlace,
    client: &FlatClientId,
    objects: &mut [FlatObjectId],
    count: &mut u32,
) -> u32
    ensures none { place.old.kept.held ≡ None → (result ≡ 1) × (place.new.kept.held ≡ None) × (objects.new ≡ objects.old) × (count.new ≡ count.old) }
    ensures kept { place.new.kept.held ≡ place.old.kept.held }
    ensures answer { Told place.old.kept.held result (λ s answer. MatchOption (objects_of_client s.core.server (client_of client.now)) ((answer ≡ status.InvalidId) × (objects.new ≡ objects.old) × (count.new ≡ 0)) (λ ids. Lists (map flat_resource ids) objects.old objects.new count.new answer)) }
{
    let Some(session) = place.take(alloc) else {
        return Status::NoSession.code();
    };
    let status = session.objects(client, objects, count);
    place.put(session);
    status.code()
}
