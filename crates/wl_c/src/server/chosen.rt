//! Objects at numbers and of versions that the host chooses, and objects with the host's data of them.

ghost use Rattle.std.specs.Prelude.{Err, IfErr, IsSome, MatchOption, None, [], map, option_map, ◌≡◌, ◌≢◌};
ghost use Rattle.wl_c.specs.Calls.{Did, Found, Gave, Told};
ghost use Rattle.wl_host.specs.Calls.{or_invalid};
ghost use Rattle.wl_host.specs.Chosen.{ClaimsObject, CreatesObjectAt, SetsObjectVersion};
ghost use Rattle.wl_flat.specs.Descriptors.{Conserves};
ghost use Rattle.wl_flat.specs.Flat.{client_of};
ghost use Rattle.wl_host.specs.Held.{flat_held};
ghost use Rattle.wl_host.specs.Lists.{Lists};
ghost use Rattle.wl_host.specs.Server.{kept_by_server};
ghost use Rattle.wl_flat.specs.declared.status.Status.TheVariants as status;
ghost use Rattle.wl_server_model.specs.Lookups.{held_by_number, held_of_client};
ghost use Rattle.wl_server_model.specs.Plain.{IsUnchanged};

use super::place::ServerPlace;
use crate::answer::write_answer;
use std::alloc::Global;
use wl_host::{FlatClientId, FlatHeldObject, FlatObjectId, Status};

/// Makes an object at a number of the client's.
#[unsafe(no_mangle)]
pub extern "C" fn nb_server_create_object_at(
    alloc: Global,
    place: &mut ServerPlace,
    client: &FlatClientId,
    interface: u32,
    version: u32,
    number: u32,
    has_data: u32,
    user_data: u64,
    object: &mut FlatObjectId,
) -> u32
    ensures none { place.old.kept.held ≡ None → (result ≡ 1) × (place.new.kept.held ≡ None) × (object.new ≡ object.old) }
    ensures stays { IsSome place.old.kept.held → IsSome place.new.kept.held }
    ensures unwritten { result ≢ 0 → object.new ≡ object.old }
    ensures missing { Gave place.old.kept.held result object.old object.new place.new.kept.held (λ s answer t. has_data ≡ 0 → (answer ≡ Err status.MissingData) × (t ≡ s)) }
    ensures created { Gave place.old.kept.held result object.old object.new place.new.kept.held (λ s answer t. has_data ≢ 0 → CreatesObjectAt s.core client.now interface version number user_data answer t.core) }
    ensures beside { Gave place.old.kept.held result object.old object.new place.new.kept.held (λ s answer t. t ≡ record s { core = t.core }) }
    ensures descriptors { Gave place.old.kept.held result object.old object.new place.new.kept.held (λ s answer t. Conserves kept_by_server s [] [] t) }
{
    let Some(mut session) = place.take(alloc) else {
        return Status::NoSession.code();
    };
    let answer = session.create_object_at(client, interface, version, number, has_data, user_data);
    place.put(session);
    write_answer(answer, object)
}

/// Finds or makes the object that is to stand for something of the program's: the client's at this number, if it has no data yet.
#[unsafe(no_mangle)]
pub extern "C" fn nb_server_claim_object(
    alloc: Global,
    place: &mut ServerPlace,
    client: &FlatClientId,
    interface: u32,
    version: u32,
    number: u32,
    user_data: u64,
    object: &mut FlatObjectId,
) -> u32
    ensures none { place.old.kept.held ≡ None → (result ≡ 1) × (place.new.kept.held ≡ None) × (object.new ≡ object.old) }
    ensures stays { IsSome place.old.kept.held → IsSome place.new.kept.held }
    ensures unwritten { result ≢ 0 → object.new ≡ object.old }
    ensures call { Gave place.old.kept.held result object.old object.new place.new.kept.held (λ s answer t. ClaimsObject s.core client.now interface version number user_data answer t.core) }
    ensures refused { Gave place.old.kept.held result object.old object.new place.new.kept.held (λ s answer t. IfErr answer (λ _. IsUnchanged s.core t.core)) }
    ensures beside { Gave place.old.kept.held result object.old object.new place.new.kept.held (λ s answer t. t ≡ record s { core = t.core }) }
    ensures descriptors { Gave place.old.kept.held result object.old object.new place.new.kept.held (λ s answer t. Conserves kept_by_server s [] [] t) }
{
    let Some(mut session) = place.take(alloc) else {
        return Status::NoSession.code();
    };
    let answer = session.claim_object(client, interface, version, number, user_data);
    place.put(session);
    write_answer(answer, object)
}

/// Gives an object another version.
#[unsafe(no_mangle)]
pub extern "C" fn nb_server_set_object_version(
    alloc: Global,
    place: &mut ServerPlace,
    object: &FlatObjectId,
    version: u32,
) -> u32
    ensures none { place.old.kept.held ≡ None → (result ≡ 1) × (place.new.kept.held ≡ None) }
    ensures stays { IsSome place.old.kept.held → IsSome place.new.kept.held }
    ensures call { Did place.old.kept.held result place.new.kept.held (λ s status t. SetsObjectVersion s.core object.now version status t.core) }
    ensures beside { Did place.old.kept.held result place.new.kept.held (λ s status t. t ≡ record s { core = t.core }) }
    ensures descriptors { Did place.old.kept.held result place.new.kept.held (λ s status t. Conserves kept_by_server s [] [] t) }
{
    let Some(mut session) = place.take(alloc) else {
        return Status::NoSession.code();
    };
    let status = session.set_object_version(object, version);
    place.put(session);
    status.code()
}

/// Finds the object that has this number with a client, whatever its interface, and the program's data of it.
#[unsafe(no_mangle)]
pub extern "C" fn nb_server_object_by_number(
    alloc: Global,
    place: &mut ServerPlace,
    client: &FlatClientId,
    number: u32,
    object: &mut FlatHeldObject,
) -> u32
    ensures none { place.old.kept.held ≡ None → (result ≡ 1) × (place.new.kept.held ≡ None) × (object.new ≡ object.old) }
    ensures kept { place.new.kept.held ≡ place.old.kept.held }
    ensures unwritten { result ≢ 0 → object.new ≡ object.old }
    ensures answer { Found place.old.kept.held result object.old object.new (λ s answer. answer ≡ or_invalid (option_map flat_held (held_by_number s.core.server (client_of client.now) number))) }
{
    let Some(session) = place.take(alloc) else {
        return Status::NoSession.code();
    };
    let answer = session.object_by_number(client, number);
    place.put(session);
    write_answer(answer, object)
}

/// Lists the objects of a client, each with the program's data of it. `count` has their number, also where the list is too short
/// for them.
#[unsafe(no_mangle)]
pub extern "C" fn nb_server_held_objects(
    alloc: Global,
    place: &mut ServerPlace,
    client: &FlatClientId,
    objects: &mut [FlatHeldObject],
    count: &mut u32,
) -> u32
    ensures none { place.old.kept.held ≡ None → (result ≡ 1) × (place.new.kept.held ≡ None) × (objects.new ≡ objects.old) × (count.new ≡ count.old) }
    ensures kept { place.new.kept.held ≡ place.old.kept.held }
    ensures answer { Told place.old.kept.held result (λ s answer. MatchOption (held_of_client s.core.server (client_of client.now)) ((answer ≡ status.InvalidId) × (objects.new ≡ objects.old) × (count.new ≡ 0)) (λ all. Lists (map flat_held all) objects.old objects.new count.new answer)) }
{
    let Some(session) = place.take(alloc) else {
        return Status::NoSession.code();
    };
    let status = session.held_objects(client, objects, count);
    place.put(session);
    status.code()
}
