//! Ids of objects and arguments of messages, which can stand in a constant.

/// The id of an object: its client, its interface and its number, and its serial.
macro_rules! id {
    ($client:expr, $interface:literal @ $number:literal, serial $serial:literal) => {
        wl_host::FlatObjectId {
            serial: $serial,
            client: $client,
            interface: $interface,
            number: $number,
        }
    };
}

/// An argument. A number of 24.8 bits, `fixed`, is the value times 256. A string or an array is where it begins in the bytes
/// beside the arguments, and how many bytes it has. The new id of a request, `new`, is null; that of an event is of an object, `made`.
macro_rules! arg {
    (int: $value:expr) => { arg!(INT, $value, 0, 0, crate::tests::told::NULL) };
    (uint: $value:expr) => { arg!(UINT, $value, 0, 0, crate::tests::told::NULL) };
    (fixed: $value:expr) => { arg!(FIXED, $value, 0, 0, crate::tests::told::NULL) };
    (fd: $value:expr) => { arg!(DESCRIPTOR, $value, 0, 0, crate::tests::told::NULL) };
    (string: $at:expr, $length:expr) => { arg!(STRING, 0, $at, $length, crate::tests::told::NULL) };
    (array: $at:expr, $length:expr) => { arg!(ARRAY, 0, $at, $length, crate::tests::told::NULL) };
    (null_string) => { arg!(NULL_STRING, 0, 0, 0, crate::tests::told::NULL) };
    (object: $object:expr) => { arg!(OBJECT, 0, 0, 0, $object) };
    (new) => { arg!(NEW_ID, 0, 0, 0, crate::tests::told::NULL) };
    (made: $object:expr) => { arg!(NEW_ID, 0, 0, 0, $object) };
    ($kind:ident, $value:expr, $at:expr, $length:expr, $object:expr) => {
        wl_host::FlatArgument {
            kind: wl_host::kind::$kind,
            value: $value,
            at: $at,
            length: $length,
            object: $object,
            data: 0,
        }
    };
}

pub(crate) use arg;
pub(crate) use id;
