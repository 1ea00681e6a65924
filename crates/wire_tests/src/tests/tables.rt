//! The table of interfaces: which lists it takes, and what it tells of each interface.

use super::OBJECT;
use std::alloc::{AllocError, Global};
use std::process::Abort;
use std::test::Fail;
use test_kit::log::tells;
use test_kit::quad::{PAIR, QUAD, quad_table};
use wl_wire::{
    ANONYMOUS_INTERFACE, ArgumentType, Interface, InterfaceId, MessageDesc, Protocol, TableError,
    WL_CALLBACK_INTERFACE, WL_DISPLAY_INTERFACE, same_interface, same_interface_or_anonymous,
};

/// A message of a list as plain data: its name, its signature, its child interface and its argument interfaces.
#[derive(Clone, Copy)]
struct Row(
    &'static str,
    &'static [ArgumentType],
    Option<InterfaceId>,
    &'static [InterfaceId],
);

/// An interface of a list as plain data: its name, its requests and its events.
#[derive(Clone, Copy)]
struct Plan(&'static str, &'static [Row], &'static [Row]);

/// The message of the row.
fn described(
    alloc: Global,
    Row(name, signature, child, objects): Row,
) -> Result<MessageDesc, AllocError> {
    Ok(MessageDesc {
        name: String::from_str(alloc, name)?,
        signature: Vec::from_slice(alloc, signature)?,
        since: 1,
        is_destructor: false,
        child_interface: child,
        arg_interfaces: Vec::from_slice(alloc, objects)?,
    })
}

/// Appends the messages to the others.
fn push_messages(
    alloc: Global,
    messages: &mut Vec<MessageDesc>,
    rows: &[Row],
) -> Result<(), AllocError> {
    for row in rows {
        messages.push(described(alloc, *row)?)?;
    }
    Ok(())
}

/// The interface of that name, without messages yet.
fn named(alloc: Global, name: &str) -> Result<Interface, AllocError> {
    Ok(Interface {
        name: String::from_str(alloc, name)?,
        version: 3,
        requests: Vec::new(alloc),
        events: Vec::new(alloc),
    })
}

/// The interface of the plan.
fn planned(alloc: Global, Plan(name, requests, events): Plan) -> Result<Interface, AllocError> {
    let mut interface = named(alloc, name)?;
    push_messages(alloc, &mut interface.requests, requests)?;
    push_messages(alloc, &mut interface.events, events)?;
    Ok(interface)
}

/// The list of these interfaces.
fn listed(alloc: Global, plans: &[Plan]) -> Result<Vec<Interface>, Fail> {
    let mut interfaces = Vec::new(alloc);
    for plan in plans {
        interfaces.push(planned(alloc, *plan)?)?;
    }
    Ok(interfaces)
}

/// A row of the table: what a failing one is named, the interfaces of a list, and its fault, if it has one.
struct Faulty {
    name: &'static str,
    plans: &'static [Plan],
    fault: Option<TableError>,
}

/// Fails if a table with the fixed interfaces alone finds another fault in the row's list.
fn faults(rt: &impl Abort, alloc: Global, row: &Faulty) -> Result<(), Fail> {
    let interfaces = listed(alloc, row.plans)?;
    assert_eq!(rt;
        Protocol::new(alloc, interfaces).err(),
        row.fault,
        "{}",
        row.name
    );
    Ok(())
}

/// Fails if a table with `quad` and `pair` finds another fault in the row's list.
fn new_faults(rt: &impl Abort, alloc: Global, row: &Faulty) -> Result<(), Fail> {
    let interfaces = listed(alloc, row.plans)?;
    assert_eq!(rt;
        quad_table(alloc)?.extend(interfaces).err(),
        row.fault,
        "{}",
        row.name
    );
    Ok(())
}

/// The messages of the rows.
fn messages(alloc: Global, rows: &[Row]) -> Result<Vec<MessageDesc>, AllocError> {
    let mut messages = Vec::new(alloc);
    push_messages(alloc, &mut messages, rows)?;
    Ok(messages)
}

/// More messages for an interface as plain data: its id, the version that has them, and the new requests and events.
#[derive(Clone, Copy)]
struct More(InterfaceId, u32, &'static [Row], &'static [Row]);

/// What the table answers to more messages for an interface.
fn extended(
    alloc: Global,
    table: &mut Protocol,
    More(id, version, requests, events): More,
) -> Result<Result<(), TableError>, AllocError> {
    let requests = messages(alloc, requests)?;
    let events = messages(alloc, events)?;
    Ok(table.extend_row(id, version, requests, events))
}

/// A row of the table: what a failing one is named, more messages for an interface, and their fault, if they have one.
struct FaultyMore {
    name: &'static str,
    more: More,
    fault: Option<TableError>,
}

/// Fails if a table with `quad` and `pair` finds another fault in the row's messages.
fn more_faults(rt: &impl Abort, alloc: Global, row: &FaultyMore) -> Result<(), Fail> {
    let mut table = quad_table(alloc)?;
    let answer = extended(alloc, &mut table, row.more)?;
    assert_eq!(rt; answer.err(), row.fault, "{}", row.name);
    Ok(())
}

/// Tells the names of the first interfaces, so many, by their ids.
fn tell_names(log: &mut String, table: &Protocol, count: usize) -> Result<(), Fail> {
    for id in 0..count {
        writeln!(log, "{id} {}", table.name(InterfaceId(id)))?;
    }
    Ok(())
}

/// Whether each message ends its object.
fn all_destructors(messages: &[MessageDesc]) -> bool {
    messages.iter().all(|message| message.is_destructor)
}

/// Tells the version of an interface, how many requests and events it has, and whether each event ends its object.
fn tell_interface(log: &mut String, interface: &Interface) -> Result<(), Fail> {
    let [requests, events] = [interface.requests.len(), interface.events.len()];
    write!(log, "{}: {requests}, {events}, ", interface.version)?;
    Ok(writeln!(log, "{}", all_destructors(&interface.events))?)
}

/// Tells of the interface of that id.
fn tell_found(log: &mut String, table: &Protocol, id: InterfaceId) -> Result<(), Fail> {
    match table.get(id) {
        Some(interface) => tell_interface(log, interface),
        None => Ok(writeln!(log, "none")?),
    }
}

/// Tells of the table of `quad` and `pair`, after which no interface has a name.
fn tell_table(log: &mut String, table: &Protocol) -> Result<(), Fail> {
    tell_names(log, table, 7)?;
    for id in [WL_CALLBACK_INTERFACE, QUAD, InterfaceId(6)] {
        tell_found(log, table, id)?;
    }
    Ok(())
}

/// What `tell_table` tells of that table.
fn table_log(alloc: Global) -> Result<String, Fail> {
    let mut log = String::new(alloc);
    tell_table(&mut log, &quad_table(alloc)?)?;
    Ok(log)
}

#[test]
fn fixed_interfaces_come_first(rt: HostRuntime) -> Result<(), Fail> {
    tells(
        &rt,
        table_log(rt.alloc()),
        "0 <anonymous>\n1 wl_display\n2 wl_registry\n3 wl_callback\n4 quad\n5 pair\n6 <unknown>\n1: 0, 1, true\n3: 5, 3, false\nnone\n",
    )
}

/// A request with two objects of `quad`.
const LINKS: [Row; 1] = [Row("link", &[OBJECT, OBJECT], None, &[QUAD, QUAD])];

/// An event without arguments.
const GONE: [Row; 1] = [Row("gone", &[], None, &[])];

/// An interface that any list may have at its front.
const LINKED: Plan = Plan("quad", &LINKS, &GONE);

/// It has two new ids, and no child interface.
const TWO_NEW_IDS: [Row; 1] = [Row("r", &[ArgumentType::NewId, ArgumentType::NewId], None, &[])];

/// Its child interface is after the only interface of the list.
const CHILD_OUTSIDE: [Row; 1] = [Row("r", &[ArgumentType::NewId], Some(InterfaceId(5)), &[])];

/// It has a new id without a child interface, and an object without an argument interface.
const NO_CHILD: [Row; 1] = [Row("r", &[ArgumentType::NewId, OBJECT], None, &[])];

/// Its child interface is the first interface of the list.
const OWN_CHILD: [Row; 1] = [Row("r", &[ArgumentType::NewId], Some(InterfaceId(4)), &[])];

/// It has a child interface and no new id.
const CHILD_OF_NOTHING: [Row; 1] = [Row("r", &[], Some(InterfaceId(4)), &[])];

/// It has an object without an argument interface.
const NO_OBJECT: [Row; 1] = [Row("e", &[OBJECT], None, &[])];

/// Its name holds a zero byte.
const ZERO: [Row; 1] = [Row("\0", &[], None, &[])];

/// Lists of interfaces, and their faults.
static FAULTS: [Faulty; 9] = [
    Faulty {
        name: "names are taken once",
        plans: &[LINKED, LINKED],
        fault: Some(TableError::DuplicateName(1)),
    },
    Faulty {
        name: "names are taken once: a fixed one",
        plans: &[Plan("wl_display", &[], &[])],
        fault: Some(TableError::DuplicateName(0)),
    },
    Faulty {
        name: "first fault: two new ids",
        plans: &[Plan("a", &TWO_NEW_IDS, &[])],
        fault: Some(TableError::TooManyNewIds(0)),
    },
    Faulty {
        name: "first fault: a child interface outside",
        plans: &[Plan("a", &CHILD_OUTSIDE, &[])],
        fault: Some(TableError::UnknownInterface(0)),
    },
    Faulty {
        name: "first fault: a child interface that is missing",
        plans: &[Plan("a", &NO_CHILD, &[])],
        fault: Some(TableError::MissingChild(0)),
    },
    Faulty {
        name: "interface may be its own child",
        plans: &[Plan("a", &OWN_CHILD, &[])],
        fault: None,
    },
    Faulty {
        name: "child interface of no new id",
        plans: &[Plan("a", &CHILD_OF_NOTHING, &[])],
        fault: None,
    },
    Faulty {
        name: "earlier interface goes first",
        plans: &[Plan("a", &[], &NO_OBJECT), Plan("\0", &[], &[])],
        fault: Some(TableError::ArgInterfaces(0)),
    },
    Faulty {
        name: "a zero in a name alone",
        plans: &[LINKED, Plan("b", &ZERO, &[])],
        fault: Some(TableError::ZeroInName(1)),
    },
];

#[test]
fn faults_of_lists(rt: HostRuntime) -> Result<(), Fail> {
    for row in &FAULTS {
        faults(&rt, rt.alloc(), row)?;
    }
    Ok(())
}

/// Its child interface is the second one of a list that follows `quad` and `pair`.
const CHILD_BEHIND: [Row; 1] = [Row("r", &[ArgumentType::NewId], Some(InterfaceId(7)), &[])];

/// An interface without messages.
const EMPTY: Plan = Plan("empty", &[], &[]);

/// Lists of interfaces that are to follow `quad` and `pair`, and their faults.
static NEW_FAULTS: [Faulty; 12] = [
    Faulty {
        name: "no interface",
        plans: &[],
        fault: None,
    },
    Faulty {
        name: "a name is taken by an old interface",
        plans: &[EMPTY, Plan("pair", &[], &[])],
        fault: Some(TableError::DuplicateName(1)),
    },
    Faulty {
        name: "a name is taken by a fixed interface",
        plans: &[Plan("wl_callback", &[], &[])],
        fault: Some(TableError::DuplicateName(0)),
    },
    Faulty {
        name: "a name is taken by a new interface",
        plans: &[Plan("a", &[], &[]), EMPTY, EMPTY],
        fault: Some(TableError::DuplicateName(2)),
    },
    Faulty {
        name: "a new interface has objects of an old one",
        plans: &[Plan("a", &LINKS, &GONE)],
        fault: None,
    },
    Faulty {
        name: "a new interface has a child of a later one",
        plans: &[Plan("a", &CHILD_BEHIND, &[]), EMPTY],
        fault: None,
    },
    Faulty {
        name: "a child interface behind the last one",
        plans: &[Plan("a", &CHILD_BEHIND, &[])],
        fault: Some(TableError::UnknownInterface(0)),
    },
    Faulty {
        name: "a zero in a new name",
        plans: &[EMPTY, Plan("a", &[], &ZERO)],
        fault: Some(TableError::ZeroInName(1)),
    },
    Faulty {
        name: "two new ids in a new interface",
        plans: &[EMPTY, Plan("a", &TWO_NEW_IDS, &[])],
        fault: Some(TableError::TooManyNewIds(1)),
    },
    Faulty {
        name: "no child interface in a new one",
        plans: &[EMPTY, Plan("a", &NO_CHILD, &[])],
        fault: Some(TableError::MissingChild(1)),
    },
    Faulty {
        name: "an earlier new interface goes first",
        plans: &[Plan("a", &[], &NO_OBJECT), Plan("pair", &[], &[])],
        fault: Some(TableError::ArgInterfaces(0)),
    },
    Faulty {
        name: "a name that is taken goes before the messages",
        plans: &[EMPTY, Plan("quad", &TWO_NEW_IDS, &[])],
        fault: Some(TableError::DuplicateName(1)),
    },
];

#[test]
fn faults_of_new_interfaces(rt: HostRuntime) -> Result<(), Fail> {
    for row in &NEW_FAULTS {
        new_faults(&rt, rt.alloc(), row)?;
    }
    Ok(())
}

/// Tells what the table answers to a list of these interfaces.
fn tell_extended(
    alloc: Global,
    log: &mut String,
    table: &mut Protocol,
    plans: &[Plan],
) -> Result<(), Fail> {
    match table.extend(listed(alloc, plans)?) {
        Ok(()) => Ok(writeln!(log, "taken")?),
        Err(error) => Ok(writeln!(log, "{error}")?),
    }
}

/// Tells of a table that takes two interfaces, refuses two, and takes one.
fn tell_growth(alloc: Global, log: &mut String, table: &mut Protocol) -> Result<(), Fail> {
    tell_extended(alloc, log, table, &[Plan("a", &LINKS, &GONE), EMPTY])?;
    tell_extended(alloc, log, table, &[Plan("b", &[], &[]), EMPTY])?;
    tell_names(log, table, 9)?;
    tell_extended(alloc, log, table, &[Plan("b", &[], &[])])?;
    tell_names(log, table, 10)?;
    for id in [WL_CALLBACK_INTERFACE, QUAD, InterfaceId(6)] {
        tell_found(log, table, id)?;
    }
    Ok(())
}

/// What `tell_growth` tells of the table of `quad` and `pair`.
fn growth_log(alloc: Global) -> Result<String, Fail> {
    let mut log = String::new(alloc);
    tell_growth(alloc, &mut log, &mut quad_table(alloc)?)?;
    Ok(log)
}

#[test]
fn new_interfaces_follow_the_old_ones(rt: HostRuntime) -> Result<(), Fail> {
    tells(
        &rt,
        growth_log(rt.alloc()),
        "taken\ninterface 1: the name is taken\n0 <anonymous>\n1 wl_display\n2 wl_registry\n3 wl_callback\n4 quad\n5 pair\n6 a\n7 empty\n8 <unknown>\ntaken\n0 <anonymous>\n1 wl_display\n2 wl_registry\n3 wl_callback\n4 quad\n5 pair\n6 a\n7 empty\n8 b\n9 <unknown>\n1: 0, 1, true\n3: 5, 3, false\n3: 1, 1, false\n",
    )
}

/// An interface that is not in the table of `quad` and `pair`, but would be the next one.
const NEXT: InterfaceId = InterfaceId(6);

/// More messages for an interface, and their faults.
static MORE_FAULTS: [FaultyMore; 15] = [
    FaultyMore {
        name: "no message",
        more: More(QUAD, 3, &[], &[]),
        fault: None,
    },
    FaultyMore {
        name: "messages about the interface itself",
        more: More(QUAD, 4, &LINKS, &OWN_CHILD),
        fault: None,
    },
    FaultyMore {
        name: "the name of a message that is there",
        more: More(QUAD, 4, &[], &GONE),
        fault: None,
    },
    FaultyMore {
        name: "an interface past the last",
        more: More(NEXT, 4, &[], &[]),
        fault: Some(TableError::UnknownInterface(0)),
    },
    FaultyMore {
        name: "a fixed interface: the first",
        more: More(ANONYMOUS_INTERFACE, 4, &[], &[]),
        fault: Some(TableError::UnknownInterface(0)),
    },
    FaultyMore {
        name: "a fixed interface: the last",
        more: More(WL_CALLBACK_INTERFACE, 1, &[], &GONE),
        fault: Some(TableError::UnknownInterface(0)),
    },
    FaultyMore {
        name: "a zero in the name of a request",
        more: More(QUAD, 4, &ZERO, &[]),
        fault: Some(TableError::ZeroInName(0)),
    },
    FaultyMore {
        name: "a zero in the name of an event",
        more: More(QUAD, 4, &GONE, &ZERO),
        fault: Some(TableError::ZeroInName(0)),
    },
    FaultyMore {
        name: "two new ids",
        more: More(PAIR, 4, &TWO_NEW_IDS, &[]),
        fault: Some(TableError::TooManyNewIds(0)),
    },
    FaultyMore {
        name: "a child interface past the last",
        more: More(QUAD, 4, &[], &CHILD_BEHIND),
        fault: Some(TableError::UnknownInterface(0)),
    },
    FaultyMore {
        name: "no child interface goes before an object without an interface",
        more: More(QUAD, 4, &NO_CHILD, &[]),
        fault: Some(TableError::MissingChild(0)),
    },
    FaultyMore {
        name: "an object without an interface",
        more: More(QUAD, 4, &[], &NO_OBJECT),
        fault: Some(TableError::ArgInterfaces(0)),
    },
    FaultyMore {
        name: "an event's fault of a lower rank goes before a request's",
        more: More(QUAD, 4, &TWO_NEW_IDS, &ZERO),
        fault: Some(TableError::ZeroInName(0)),
    },
    FaultyMore {
        name: "a zero in a name goes before the interface",
        more: More(NEXT, 4, &ZERO, &[]),
        fault: Some(TableError::ZeroInName(0)),
    },
    FaultyMore {
        name: "the interface goes before two new ids",
        more: More(NEXT, 4, &TWO_NEW_IDS, &[]),
        fault: Some(TableError::UnknownInterface(0)),
    },
];

#[test]
fn faults_of_more_messages(rt: HostRuntime) -> Result<(), Fail> {
    for row in &MORE_FAULTS {
        more_faults(&rt, rt.alloc(), row)?;
    }
    Ok(())
}

/// Tells the name of the message, if it is there.
fn tell_message(log: &mut String, message: Option<&MessageDesc>) -> Result<(), Fail> {
    match message {
        Some(message) => Ok(writeln!(log, "{}", message.name)?),
        None => Ok(writeln!(log, "none")?),
    }
}

/// Tells of `quad`, of its requests from the opcode 4 on, of its events from the opcode 2 on, and of `pair`.
fn tell_quad(log: &mut String, table: &Protocol) -> Result<(), Fail> {
    tell_found(log, table, QUAD)?;
    for opcode in 4..7 {
        tell_message(log, table.request(QUAD, opcode))?;
    }
    for opcode in 2..6 {
        tell_message(log, table.event(QUAD, opcode))?;
    }
    tell_found(log, table, PAIR)
}

/// Tells what the table answers to more messages for an interface, and what it then has.
fn tell_more(
    alloc: Global,
    log: &mut String,
    table: &mut Protocol,
    more: More,
) -> Result<(), Fail> {
    match extended(alloc, table, more)? {
        Ok(()) => writeln!(log, "taken")?,
        Err(error) => writeln!(log, "{error}")?,
    }
    tell_quad(log, table)
}

/// Tells of a table that refuses messages, takes some of a later version, and more of an earlier one.
fn tell_longer(alloc: Global, log: &mut String, table: &mut Protocol) -> Result<(), Fail> {
    tell_more(alloc, log, table, More(QUAD, 5, &LINKS, &ZERO))?;
    tell_more(alloc, log, table, More(QUAD, 4, &LINKS, &GONE))?;
    tell_more(alloc, log, table, More(QUAD, 2, &[], &OWN_CHILD))?;
    tell_names(log, table, 7)
}

/// What `tell_longer` tells of the table of `quad` and `pair`.
fn longer_log(alloc: Global) -> Result<String, Fail> {
    let mut log = String::new(alloc);
    tell_longer(alloc, &mut log, &mut quad_table(alloc)?)?;
    Ok(log)
}

#[test]
fn new_messages_follow_the_old_ones(rt: HostRuntime) -> Result<(), Fail> {
    tells(
        &rt,
        longer_log(rt.alloc()),
        "interface 0: a name holds a zero byte\n3: 5, 3, false\ngive\nnone\nnone\ngone\nnone\nnone\nnone\n1: 1, 1, false\ntaken\n4: 6, 4, false\ngive\nlink\nnone\ngone\ngone\nnone\nnone\n1: 1, 1, false\ntaken\n4: 6, 5, false\ngive\nlink\nnone\ngone\ngone\nr\nnone\n1: 1, 1, false\n0 <anonymous>\n1 wl_display\n2 wl_registry\n3 wl_callback\n4 quad\n5 pair\n6 <unknown>\n",
    )
}

#[test]
fn anonymous_is_any_interface(rt: HostRuntime) {
    let [any, display] = [ANONYMOUS_INTERFACE, WL_DISPLAY_INTERFACE];
    assert_eq!(rt;
        [
            same_interface(display, display),
            same_interface(any, display)
        ],
        [true, false]
    );
    assert_eq!(rt;
        [
            same_interface_or_anonymous(any, display),
            same_interface_or_anonymous(display, display),
            same_interface_or_anonymous(display, any),
        ],
        [true, true, false]
    );
}
