//! The table of the tests, as flat rows: one interface, `pad`, with the number 4. A second one, `note` or `knot`, with the number 5,
//! may be added.
//!
//! Requests of `pad`: `push(int, fd)`, `label(string)`, the destructor `close`, `make(new_id<pad>)`. Its events: `moved(int)`,
//! `given(fd)`.
//!
//! The request of `note` has an argument of each kind: `tell(int, uint, fixed, string, string or null, pad, pad or null,
//! new_id<pad>, array, fd)`. Its event: `said(string, array, fixed, fd, uint)`.
//!
//! `knot` has arguments that may be null beside such that may not. Its request: `tie(string or null, string, string)`. Its event:
//! `tied(pad or null, pad, string or null, string)`.
//!
//! `gate` has arguments that may not be null beside descriptors and new objects. Its requests: the destructor `leave(string, fd)`, and
//! `open(new_id<pad>, string)`. Its event: `opened(new_id<pad>, string, fd)`.

use wl_host::{ArgumentRow, InterfaceRow, MessageRow, Rows, kind};

/// An interface: where its name begins, how many bytes that has, its version, and how many requests and events it has.
macro_rules! interface {
    ($name_at:expr, $name_length:expr, $version:expr, $requests:expr, $events:expr) => {
        InterfaceRow {
            name_at: $name_at,
            name_length: $name_length,
            version: $version,
            requests: $requests,
            events: $events,
        }
    };
}

/// A message: where its name begins, how many bytes that has, how many arguments it has, and whether it is a destructor.
macro_rules! message {
    ($name_at:expr, $name_length:expr, $arguments:expr, $is_destructor:expr) => {
        MessageRow {
            name_at: $name_at,
            name_length: $name_length,
            since: 1,
            is_destructor: $is_destructor,
            arguments: $arguments,
        }
    };
}

/// An argument: its kind, its interface, and whether it may be null.
macro_rules! argument {
    ($kind:expr, $interface:expr, $is_nullable:expr) => {
        ArgumentRow {
            kind: $kind,
            is_nullable: $is_nullable,
            interface: $interface,
        }
    };
}

/// The table with `pad` alone.
pub const TABLE: Rows = Rows {
    text: b"padpushlabelclosemakemovedgiven",
    interfaces: &[interface!(0, 3, 2, 4, 2)],
    messages: &[
        message!(3, 4, 2, 0),
        message!(7, 5, 1, 0),
        message!(12, 5, 0, 1),
        message!(17, 4, 1, 0),
        message!(21, 5, 1, 0),
        message!(26, 5, 1, 0),
    ],
    arguments: &[
        argument!(kind::INT, 0, 0),
        argument!(kind::DESCRIPTOR, 0, 0),
        argument!(kind::STRING, 0, 0),
        argument!(kind::NEW_ID, 4, 0),
        argument!(kind::INT, 0, 0),
        argument!(kind::DESCRIPTOR, 0, 0),
    ],
};

/// The rows of `note`.
pub const NOTE: Rows = Rows {
    text: b"notetellsaid",
    interfaces: &[interface!(0, 4, 1, 1, 1)],
    messages: &[message!(4, 4, 10, 0), message!(8, 4, 5, 0)],
    arguments: &[
        argument!(kind::INT, 0, 0),
        argument!(kind::UINT, 0, 0),
        argument!(kind::FIXED, 0, 0),
        argument!(kind::STRING, 0, 0),
        argument!(kind::STRING, 0, 1),
        argument!(kind::OBJECT, 4, 0),
        argument!(kind::OBJECT, 4, 1),
        argument!(kind::NEW_ID, 4, 0),
        argument!(kind::ARRAY, 0, 0),
        argument!(kind::DESCRIPTOR, 0, 0),
        argument!(kind::STRING, 0, 0),
        argument!(kind::ARRAY, 0, 0),
        argument!(kind::FIXED, 0, 0),
        argument!(kind::DESCRIPTOR, 0, 0),
        argument!(kind::UINT, 0, 0),
    ],
};

/// The rows of `knot`.
pub const KNOT: Rows = Rows {
    text: b"knottietied",
    interfaces: &[interface!(0, 4, 1, 1, 1)],
    messages: &[message!(4, 3, 3, 0), message!(7, 4, 4, 0)],
    arguments: &[
        argument!(kind::STRING, 0, 1),
        argument!(kind::STRING, 0, 0),
        argument!(kind::STRING, 0, 0),
        argument!(kind::OBJECT, 4, 1),
        argument!(kind::OBJECT, 4, 0),
        argument!(kind::STRING, 0, 1),
        argument!(kind::STRING, 0, 0),
    ],
};

/// The rows of `gate`.
pub const GATE: Rows = Rows {
    text: b"gateleaveopenopened",
    interfaces: &[interface!(0, 4, 1, 2, 1)],
    messages: &[
        message!(4, 5, 2, 1),
        message!(9, 4, 2, 0),
        message!(13, 6, 3, 0),
    ],
    arguments: &[
        argument!(kind::STRING, 0, 0),
        argument!(kind::DESCRIPTOR, 0, 0),
        argument!(kind::NEW_ID, 4, 0),
        argument!(kind::STRING, 0, 0),
        argument!(kind::NEW_ID, 4, 0),
        argument!(kind::STRING, 0, 0),
        argument!(kind::DESCRIPTOR, 0, 0),
    ],
};

/// `pad` of version 3, with one more request, `write(string, new_id<note>)`, and one more event, `full()`; and `note` with one
/// event, `read()`.
pub const LONG_PAD: Rows = Rows {
    text: b"padpushlabelclosemakemovedgivenwritefullnoteread",
    interfaces: &[interface!(0, 3, 3, 5, 3), interface!(40, 4, 1, 0, 1)],
    messages: &[
        message!(3, 4, 2, 0),
        message!(7, 5, 1, 0),
        message!(12, 5, 0, 1),
        message!(17, 4, 1, 0),
        message!(31, 5, 2, 0),
        message!(21, 5, 1, 0),
        message!(26, 5, 1, 0),
        message!(36, 4, 0, 0),
        message!(44, 4, 0, 0),
    ],
    arguments: &[
        argument!(kind::INT, 0, 0),
        argument!(kind::DESCRIPTOR, 0, 0),
        argument!(kind::STRING, 0, 0),
        argument!(kind::NEW_ID, 4, 0),
        argument!(kind::STRING, 0, 0),
        argument!(kind::NEW_ID, 5, 0),
        argument!(kind::INT, 0, 0),
        argument!(kind::DESCRIPTOR, 0, 0),
    ],
};

/// `pad` of version 4 whose second event, `given`, has an integer; and an interface `new`.
pub const OTHER_PAD: Rows = Rows {
    text: b"padmovedgivennew",
    interfaces: &[interface!(0, 3, 4, 0, 2), interface!(13, 3, 1, 0, 0)],
    messages: &[message!(3, 5, 1, 0), message!(8, 5, 1, 0)],
    arguments: &[argument!(kind::INT, 0, 0), argument!(kind::INT, 0, 0)],
};

/// `pad` twice.
pub const PAD_TWICE: Rows = Rows {
    text: b"padnew",
    interfaces: &[
        interface!(3, 3, 1, 0, 0),
        interface!(0, 3, 1, 0, 0),
        interface!(0, 3, 1, 0, 0),
    ],
    messages: &[],
    arguments: &[],
};

/// `note` of version 2 whose second event names an interface that is not there; and an interface `new`.
pub const BAD_NOTE: Rows = Rows {
    text: b"notereadfarnew",
    interfaces: &[interface!(0, 4, 2, 0, 2), interface!(11, 3, 1, 0, 0)],
    messages: &[message!(4, 4, 0, 0), message!(8, 3, 1, 0)],
    arguments: &[argument!(kind::OBJECT, 99, 0)],
};

/// `pad` of version 3 with a third event, `made(new_id<pad>)`; and `sheet`, with the event `torn()`.
pub const MAKING_PAD: Rows = Rows {
    text: b"padmovedgivenmadesheettorn",
    interfaces: &[interface!(0, 3, 3, 0, 3), interface!(17, 5, 1, 0, 1)],
    messages: &[
        message!(3, 5, 1, 0),
        message!(8, 5, 1, 0),
        message!(13, 4, 1, 0),
        message!(22, 4, 0, 0),
    ],
    arguments: &[
        argument!(kind::INT, 0, 0),
        argument!(kind::DESCRIPTOR, 0, 0),
        argument!(kind::NEW_ID, 4, 0),
    ],
};

/// `pad` whose second request, `label`, takes a null.
pub const LAX_PAD: Rows = Rows {
    text: b"padpushlabel",
    interfaces: &[interface!(0, 3, 2, 2, 0)],
    messages: &[message!(3, 4, 2, 0), message!(7, 5, 1, 0)],
    arguments: &[
        argument!(kind::INT, 0, 0),
        argument!(kind::DESCRIPTOR, 0, 0),
        argument!(kind::STRING, 0, 1),
    ],
};

/// `pad` of version 4 whose second event, `given`, has an integer.
pub const TOLD_PAD: Rows = Rows {
    text: b"padmovedgiven",
    interfaces: &[interface!(0, 3, 4, 0, 2)],
    messages: &[message!(3, 5, 1, 0), message!(8, 5, 1, 0)],
    arguments: &[argument!(kind::INT, 0, 0), argument!(kind::INT, 0, 0)],
};

/// `pad` as in `LONG_PAD`, but that no request is a destructor.
pub const LONGER_PAD: Rows = Rows {
    text: b"padpushlabelclosemakemovedgivenwritefullnoteread",
    interfaces: &[interface!(0, 3, 3, 5, 3)],
    messages: &[
        message!(3, 4, 2, 0),
        message!(7, 5, 1, 0),
        message!(12, 5, 0, 0),
        message!(17, 4, 1, 0),
        message!(31, 5, 2, 0),
        message!(21, 5, 1, 0),
        message!(26, 5, 1, 0),
        message!(36, 4, 0, 0),
    ],
    arguments: &[
        argument!(kind::INT, 0, 0),
        argument!(kind::DESCRIPTOR, 0, 0),
        argument!(kind::STRING, 0, 0),
        argument!(kind::NEW_ID, 4, 0),
        argument!(kind::STRING, 0, 0),
        argument!(kind::NEW_ID, 5, 0),
        argument!(kind::INT, 0, 0),
        argument!(kind::DESCRIPTOR, 0, 0),
    ],
};

/// `note` of version 0 without messages.
pub const BARE_NOTE: Rows = Rows {
    text: b"note",
    interfaces: &[interface!(0, 4, 0, 0, 0)],
    messages: &[],
    arguments: &[],
};

/// `note` with one event, `read()`.
pub const READ_NOTE: Rows = Rows {
    text: b"noteread",
    interfaces: &[interface!(0, 4, 1, 0, 1)],
    messages: &[message!(4, 4, 0, 0)],
    arguments: &[],
};

/// `note` of version 2 with two events, `read()` and `lost(string)`.
pub const LONGER_NOTE: Rows = Rows {
    text: b"notereadlost",
    interfaces: &[interface!(0, 4, 2, 0, 2)],
    messages: &[message!(4, 4, 0, 0), message!(8, 4, 1, 0)],
    arguments: &[argument!(kind::STRING, 0, 0)],
};

/// `note` of version 2 whose second event names an interface that is not there.
pub const FAR_NOTE: Rows = Rows {
    text: b"notereadfar",
    interfaces: &[interface!(0, 4, 2, 0, 2)],
    messages: &[message!(4, 4, 0, 0), message!(8, 3, 1, 0)],
    arguments: &[argument!(kind::OBJECT, 99, 0)],
};

/// `wl_callback` of version 2.
pub const NEW_CALLBACK: Rows = Rows {
    text: b"wl_callbackdone",
    interfaces: &[interface!(0, 11, 2, 0, 1)],
    messages: &[message!(11, 4, 1, 0)],
    arguments: &[argument!(kind::UINT, 0, 0)],
};

/// The same of version 1.
pub const OLD_CALLBACK: Rows = Rows {
    text: b"wl_callbackdone",
    interfaces: &[interface!(0, 11, 1, 0, 1)],
    messages: &[message!(11, 4, 1, 0)],
    arguments: &[argument!(kind::UINT, 0, 0)],
};

/// No rows.
pub const NO_ROWS: Rows = Rows {
    text: b"",
    interfaces: &[],
    messages: &[],
    arguments: &[],
};
