//! The map of objects: its calls as a list, and what each tells. Numbers of objects are told in hex.

use std::alloc::Global;
use std::test::Fail;
use test_kit::log::{row_tells, tells};
use wl_link::{InsertError, NewError, Object, ObjectMap};
use wl_wire::{OutOfMemory, WL_CALLBACK_INTERFACE};

/// A call of a map whose objects are numbers.
#[derive(Clone, Copy)]
enum Act {
    /// Puts a number at the number of an object.
    InsertAt(u32, u32),
    /// Puts numbers at the numbers from 1 to this one.
    Fill(u32),
    /// Puts a new object of the client.
    ClientNew(u32),
    /// Puts a new object of the server.
    ServerNew(u32),
    /// Makes room, and puts a new object of the client.
    ReserveAndNew(u32),
    /// Makes room for the next insertion.
    Reserve,
    /// Asks for the number of the next new object of the client.
    NextClient,
    /// Takes the object of this number out.
    Remove(u32),
    /// Looks for the object of this number.
    Find(u32),
    /// Asks whether an object may be put at this number.
    IsFree(u32),
    /// Asks whether this number was in use and is free.
    IsVacant(u32),
    /// Lends the object, in whose place the second number is written.
    With(u32, u32),
    /// How many words the last search for a number read.
    WordsRead,
    /// All objects.
    All,
}

/// An object that is this number.
fn object(value: u32) -> Object<u32> {
    Object {
        interface: WL_CALLBACK_INTERFACE,
        version: 1,
        value,
    }
}

/// Tells the answer to an insertion at a number.
fn tell_inserted(
    log: &mut String,
    number: u32,
    inserted: Result<(), InsertError>,
) -> Result<(), Fail> {
    let written = match inserted {
        Ok(()) => writeln!(log, "insert at {number:x}: done"),
        Err(error) => writeln!(log, "insert at {number:x}: {error}"),
    };
    Ok(written?)
}

/// Puts an object at each number up to this one.
fn insert_up_to(map: &mut ObjectMap<u32>, last: u32) -> Result<(), InsertError> {
    for before in 0..last {
        map.insert_at(before + 1, object(before))?;
    }
    Ok(())
}

/// Tells how the last of these insertions went, or the first that was refused.
fn fill(log: &mut String, map: &mut ObjectMap<u32>, last: u32) -> Result<(), Fail> {
    tell_inserted(log, last, insert_up_to(map, last))
}

/// Tells the number that a new object was given, by which call.
fn tell_new(log: &mut String, call: &str, new: Result<u32, NewError>) -> Result<(), Fail> {
    let written = match new {
        Ok(number) => writeln!(log, "{call}: {number:x}"),
        Err(error) => writeln!(log, "{call}: {error}"),
    };
    Ok(written?)
}

/// Tells the value that a call found at a number.
fn tell_value(log: &mut String, call: &str, number: u32, value: Option<u32>) -> Result<(), Fail> {
    let written = match value {
        Some(value) => writeln!(log, "{call} {number:x}: {value}"),
        None => writeln!(log, "{call} {number:x}: none"),
    };
    Ok(written?)
}

/// Inserts without asking for memory once there is room: what `reserve` promises.
fn insert_reserved(map: &mut ObjectMap<u32>, value: u32) -> Result<Option<u32>, OutOfMemory> {
    map.reserve()?;
    match map.client_insert_new(object(value)) {
        Ok(number) => Ok(Some(number)),
        Err(NewError::IdsExhausted) => Ok(None),
        Err(NewError::OutOfMemory) => unreachable!(),
    }
}

/// Tells the number that `insert_reserved` answers.
fn reserve_and_new(log: &mut String, map: &mut ObjectMap<u32>, value: u32) -> Result<(), Fail> {
    let new = insert_reserved(map, value)?;
    tell_new(log, "reserve and new", new.ok_or(NewError::IdsExhausted))
}

/// Makes room.
fn reserve(log: &mut String, map: &mut ObjectMap<u32>) -> Result<(), Fail> {
    map.reserve()?;
    Ok(writeln!(log, "reserve: done")?)
}

/// Tells the number of the next new object of the client.
fn next_client(log: &mut String, map: &mut ObjectMap<u32>) -> Result<(), Fail> {
    let next = map.next_client();
    tell_new(log, "next client", next.ok_or(NewError::IdsExhausted))
}

/// Takes an object out, and tells its value.
fn remove(log: &mut String, map: &mut ObjectMap<u32>, number: u32) -> Result<(), Fail> {
    let removed = map.remove(number).map(|object| object.value);
    tell_value(log, "remove", number, removed)
}

/// Tells the value of an object.
fn find(log: &mut String, map: &ObjectMap<u32>, number: u32) -> Result<(), Fail> {
    let found = map.find(number).map(|object| object.value);
    tell_value(log, "find", number, found)
}

/// Tells whether an object may be put at the number.
fn is_free(log: &mut String, map: &ObjectMap<u32>, number: u32) -> Result<(), Fail> {
    let free = map.is_free(number);
    Ok(writeln!(log, "free {number:x}: {free}")?)
}

/// Tells whether the number was in use and is free.
fn is_vacant(log: &mut String, map: &ObjectMap<u32>, number: u32) -> Result<(), Fail> {
    let vacant = map.is_vacant(number);
    Ok(writeln!(log, "vacant {number:x}: {vacant}")?)
}

/// Lends the object, and tells the value that it had and whether the closure was called.
fn with(log: &mut String, map: &mut ObjectMap<u32>, number: u32, value: u32) -> Result<(), Fail> {
    let mut called = false;
    let before = map.with(number, |object| {
        called = true;
        let before = object.value;
        object.value = value;
        before
    });
    let call = if called {
        "called with"
    } else {
        "not called with"
    };
    tell_value(log, call, number, before)
}

/// Tells how many words the last search for a number read.
fn words_read(log: &mut String, map: &ObjectMap<u32>) -> Result<(), Fail> {
    Ok(writeln!(log, "words read: {}", map.words_read())?)
}

/// Tells the number and the value of an object.
fn tell_object(log: &mut String, number: u32, object: &Object<u32>) -> Result<(), Fail> {
    Ok(write!(log, " {number:x}={}", object.value)?)
}

/// Tells each object.
fn tell_objects(log: &mut String, map: &ObjectMap<u32>) -> Result<(), Fail> {
    for (number, object) in map.all_objects() {
        tell_object(log, number, object)?;
    }
    Ok(())
}

/// Tells all objects, each number with its value.
fn all(log: &mut String, map: &ObjectMap<u32>) -> Result<(), Fail> {
    write!(log, "all:")?;
    tell_objects(log, map)?;
    Ok(writeln!(log, "")?)
}

/// Makes the call, and tells its answer.
fn perform(log: &mut String, map: &mut ObjectMap<u32>, act: Act) -> Result<(), Fail> {
    match act {
        Act::InsertAt(number, value) => {
            tell_inserted(log, number, map.insert_at(number, object(value)))
        }
        Act::ClientNew(value) => tell_new(log, "client new", map.client_insert_new(object(value))),
        Act::ServerNew(value) => tell_new(log, "server new", map.server_insert_new(object(value))),
        Act::ReserveAndNew(value) => reserve_and_new(log, map, value),
        Act::Reserve => reserve(log, map),
        Act::NextClient => next_client(log, map),
        Act::Remove(number) => remove(log, map, number),
        Act::Find(number) => find(log, map, number),
        Act::IsFree(number) => is_free(log, map, number),
        Act::IsVacant(number) => is_vacant(log, map, number),
        Act::With(number, value) => with(log, map, number, value),
        Act::Fill(last) => fill(log, map, last),
        Act::WordsRead => words_read(log, map),
        Act::All => all(log, map),
    }
}

/// Makes the calls, and tells their answers.
fn perform_all(log: &mut String, map: &mut ObjectMap<u32>, acts: &[Act]) -> Result<(), Fail> {
    for act in acts {
        perform(log, map, *act)?;
    }
    Ok(())
}

/// What the calls of a new map tell.
fn map_log(alloc: Global, acts: &[Act]) -> Result<String, Fail> {
    let mut log = String::new(alloc);
    let mut map = ObjectMap::new(alloc);
    let answer = perform_all(&mut log, &mut map, acts);
    drop(map);
    answer?;
    Ok(log)
}

/// A row of the table: what a failing one is named, its calls, and what they have to tell.
struct Row {
    name: &'static str,
    acts: &'static [Act],
    told: &'static str,
}

/// Calls of a new map, and what they tell.
static ROWS: [Row; 10] = [
    Row {
        name: "numbers are taken, freed and taken again",
        acts: &[
            Act::InsertAt(1, 10),
            Act::InsertAt(3, 30),
            Act::InsertAt(2, 20),
            Act::InsertAt(3, 30),
            Act::InsertAt(0, 0),
            Act::Remove(2),
            Act::InsertAt(2, 21),
            Act::InsertAt(2, 22),
            Act::Reserve,
            Act::NextClient,
            Act::ClientNew(40),
            Act::ServerNew(50),
            Act::InsertAt(0xFF00_0002, 60),
            Act::Remove(4),
            Act::InsertAt(5, 70),
            Act::ClientNew(80),
            Act::With(9, 90),
            Act::All,
        ],
        told: "insert at 1: done\ninsert at 3: the number is not free\ninsert at 2: done\ninsert at 3: done\ninsert at 0: the number is not free\nremove 2: 20\ninsert at 2: done\ninsert at 2: the number is not free\nreserve: done\nnext client: 4\nclient new: 4\nserver new: ff000000\ninsert at ff000002: the number is not free\nremove 4: 40\ninsert at 5: done\nclient new: 4\nnot called with 9: none\nall: 1=10 2=21 3=30 4=80 5=70 ff000000=50\n",
    },
    Row {
        name: "the client range is walked before the server range",
        acts: &[
            Act::All,
            Act::ServerNew(1),
            Act::InsertAt(0xFF00_0001, 2),
            Act::ClientNew(3),
            Act::ClientNew(4),
            Act::Remove(0xFF00_0000),
            Act::All,
        ],
        told: "all:\nserver new: ff000000\ninsert at ff000001: done\nclient new: 1\nclient new: 2\nremove ff000000: 1\nall: 1=3 2=4 ff000001=2\n",
    },
    Row {
        name: "a number is free without an object, up to the first that was never used",
        acts: &[
            Act::IsFree(0),
            Act::IsFree(1),
            Act::IsFree(2),
            Act::Fill(2),
            Act::ServerNew(7),
            Act::IsFree(1),
            Act::IsFree(3),
            Act::IsFree(4),
            Act::IsFree(0xFF00_0000),
            Act::IsFree(0xFF00_0001),
            Act::IsFree(0xFF00_0002),
            Act::Remove(1),
            Act::IsFree(1),
        ],
        told: "free 0: false\nfree 1: true\nfree 2: false\ninsert at 2: done\nserver new: ff000000\nfree 1: false\nfree 3: true\nfree 4: false\nfree ff000000: false\nfree ff000001: true\nfree ff000002: false\nremove 1: 0\nfree 1: true\n",
    },
    Row {
        name: "a number is vacant once its object is gone",
        acts: &[
            Act::Fill(2),
            Act::ServerNew(7),
            Act::IsVacant(0),
            Act::IsVacant(2),
            Act::IsVacant(3),
            Act::IsVacant(0xFF00_0000),
            Act::IsVacant(0xFF00_0001),
            Act::Remove(2),
            Act::Remove(0xFF00_0000),
            Act::IsVacant(1),
            Act::IsVacant(2),
            Act::IsVacant(3),
            Act::IsVacant(0xFF00_0000),
        ],
        told: "insert at 2: done\nserver new: ff000000\nvacant 0: false\nvacant 2: false\nvacant 3: false\nvacant ff000000: false\nvacant ff000001: false\nremove 2: 1\nremove ff000000: 7\nvacant 1: false\nvacant 2: true\nvacant 3: false\nvacant ff000000: true\n",
    },
    Row {
        name: "an object is lent and written to",
        acts: &[
            Act::ClientNew(7),
            Act::With(1, 8),
            Act::Find(1),
            Act::Find(2),
            Act::Find(0),
        ],
        told: "client new: 1\ncalled with 1: 7\nfind 1: 8\nfind 2: none\nfind 0: none\n",
    },
    Row {
        name: "an insertion after reserve takes no memory",
        acts: &[Act::ReserveAndNew(1), Act::ReserveAndNew(2)],
        told: "reserve and new: 1\nreserve and new: 2\n",
    },
    Row {
        name: "the first number is found without a word",
        acts: &[Act::WordsRead, Act::ClientNew(7), Act::WordsRead],
        told: "words read: 0\nclient new: 1\nwords read: 0\n",
    },
    Row {
        name: "freed numbers are found from the least by two words",
        acts: &[
            Act::Fill(200),
            Act::Remove(131),
            Act::Remove(70),
            Act::Remove(3),
            Act::ClientNew(7),
            Act::WordsRead,
            Act::NextClient,
            Act::WordsRead,
            Act::ClientNew(7),
            Act::WordsRead,
            Act::ClientNew(7),
            Act::WordsRead,
            Act::ClientNew(7),
            Act::WordsRead,
            Act::Remove(1),
            Act::WordsRead,
        ],
        told: "insert at c8: done\nremove 83: 130\nremove 46: 69\nremove 3: 2\nclient new: 3\nwords read: 2\nnext client: 46\nwords read: 2\nclient new: 46\nwords read: 2\nclient new: 83\nwords read: 2\nclient new: c9\nwords read: 1\nremove 1: 0\nwords read: 1\n",
    },
    Row {
        name: "the last of 4096 numbers is found by two words",
        acts: &[
            Act::Fill(4096),
            Act::Remove(4096),
            Act::ClientNew(7),
            Act::WordsRead,
        ],
        told: "insert at 1000: done\nremove 1000: 4095\nclient new: 1000\nwords read: 2\n",
    },
    Row {
        name: "the last of 4097 numbers is found by three words",
        acts: &[
            Act::Fill(4097),
            Act::Remove(4097),
            Act::ClientNew(7),
            Act::WordsRead,
        ],
        told: "insert at 1001: done\nremove 1001: 4096\nclient new: 1001\nwords read: 3\n",
    },
];

/// What is told if a range is full. No run fills one.
fn full_log(alloc: Global) -> Result<String, Fail> {
    let mut log = String::new(alloc);
    tell_new(&mut log, "server new", Err(NewError::IdsExhausted))?;
    Ok(log)
}

/// Each run tells what it has to.
#[test]
fn rows(rt: HostRuntime) -> Result<(), Fail> {
    for row in &ROWS {
        row_tells(&rt, row.name, map_log(rt.alloc(), row.acts), row.told)?;
    }
    tells(&rt, full_log(rt.alloc()), "server new: no number is left\n")
}
