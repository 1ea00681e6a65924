//! Requests that arrive, in bytes.

use test_kit::cuts::Stream;

/// `wl_display.sync` with the new id 2.
pub const SYNC: [u8; 12] = [1, 0, 0, 0, 0, 0, 12, 0, 2, 0, 0, 0];

/// `wl_display.sync` with the new id 4.
pub const SYNC_AT_4: [u8; 12] = [1, 0, 0, 0, 0, 0, 12, 0, 4, 0, 0, 0];

/// `wl_display.sync` with the new id 5.
pub const SYNC_AT_5: [u8; 12] = [1, 0, 0, 0, 0, 0, 12, 0, 5, 0, 0, 0];

/// `wl_display.sync` with the first new id of the server's range.
pub const SYNC_AT_SERVER: [u8; 12] = [1, 0, 0, 0, 0, 0, 12, 0, 0, 0, 0, 255];

/// `wl_display.get_registry` with the new id 2.
pub const GET_REGISTRY: [u8; 12] = [1, 0, 0, 0, 1, 0, 12, 0, 2, 0, 0, 0];

/// The same with the new id 3.
pub const GET_REGISTRY_AT_3: [u8; 12] = [1, 0, 0, 0, 1, 0, 12, 0, 3, 0, 0, 0];

/// The same with the new id 4.
pub const GET_REGISTRY_AT_4: [u8; 12] = [1, 0, 0, 0, 1, 0, 12, 0, 4, 0, 0, 0];

/// `wl_registry.bind`, by registry 2, of the global 1, as `quad` of version 3, with the new id 3.
pub const BIND: [u8; 32] = [
    2, 0, 0, 0, 0, 0, 32, 0, 1, 0, 0, 0, 5, 0, 0, 0, 113, 117, 97, 100, 0, 0, 0, 0, 3, 0, 0, 0, 3,
    0, 0, 0,
];

/// The same with the new id 4.
pub const BIND_AT_4: [u8; 32] = [
    2, 0, 0, 0, 0, 0, 32, 0, 1, 0, 0, 0, 5, 0, 0, 0, 113, 117, 97, 100, 0, 0, 0, 0, 3, 0, 0, 0, 4,
    0, 0, 0,
];

/// The same of version 1, with the new id 3.
pub const BIND_VERSION_1: [u8; 32] = [
    2, 0, 0, 0, 0, 0, 32, 0, 1, 0, 0, 0, 5, 0, 0, 0, 113, 117, 97, 100, 0, 0, 0, 0, 1, 0, 0, 0, 3,
    0, 0, 0,
];

/// The same of version 1 and without a name.
pub const BIND_NULL: [u8; 24] = [
    2, 0, 0, 0, 0, 0, 24, 0, 1, 0, 0, 0, 0, 0, 0, 0, 1, 0, 0, 0, 3, 0, 0, 0,
];

/// `quad.make`, by the first object of the server's range, with the new id 2.
pub const MAKE_BY_SERVER: [u8; 12] = [0, 0, 0, 255, 1, 0, 12, 0, 2, 0, 0, 0];

/// `quad.make`, by object 3, with the new id 4.
pub const MAKE: [u8; 12] = [3, 0, 0, 0, 1, 0, 12, 0, 4, 0, 0, 0];

/// `quad.destroy`, by object 3.
pub const DESTROY: [u8; 8] = [3, 0, 0, 0, 2, 0, 8, 0];

/// `quad.destroy`, by object 4.
pub const DESTROY_4: [u8; 8] = [4, 0, 0, 0, 2, 0, 8, 0];

/// `quad.link`, by object 3, of no object and no object.
pub const LINK_OF_NONE: [u8; 16] = [3, 0, 0, 0, 3, 0, 16, 0, 0, 0, 0, 0, 0, 0, 0, 0];

/// `quad.link`, by object 3, of objects 2 and 3.
pub const LINK_OF_2: [u8; 16] = [3, 0, 0, 0, 3, 0, 16, 0, 2, 0, 0, 0, 3, 0, 0, 0];

/// `quad.link`, by object 3, of objects 9 and 3.
pub const LINK_OF_9: [u8; 16] = [3, 0, 0, 0, 3, 0, 16, 0, 9, 0, 0, 0, 3, 0, 0, 0];

/// `quad.give`, by object 3, of no string and one byte.
pub const GIVE: [u8; 20] = [3, 0, 0, 0, 4, 0, 20, 0, 0, 0, 0, 0, 1, 0, 0, 0, 1, 0, 0, 0];

/// `quad.give`, by object 3, of 5000 bytes: of the string `a`, and of 4980 bytes.
pub const GIVE_5000: Stream = Stream {
    front: &[
        3, 0, 0, 0, 4, 0, 0x88, 0x13, 2, 0, 0, 0, 97, 0, 0, 0, 0x74, 0x13, 0, 0,
    ],
    filled: 4980,
    back: &[],
};

/// The same of 65532 bytes: of the string `a`, and of 65512 bytes.
pub const GIVE_65532: Stream = Stream {
    front: &[
        3, 0, 0, 0, 4, 0, 0xFC, 0xFF, 2, 0, 0, 0, 97, 0, 0, 0, 0xE8, 0xFF, 0, 0,
    ],
    filled: 65512,
    back: &[],
};

/// The first 100 bytes of a request of the display that has 200.
pub const HALF_A_REQUEST: Stream = Stream {
    front: &[1, 0, 0, 0, 0, 0, 200, 0],
    filled: 92,
    back: &[],
};

/// A header whose sender nobody knows, of a length that is never there.
pub const UNKNOWN_SENDER: [u8; 8] = [99, 0, 0, 0, 0, 0, 255, 255];

/// A request of the display that it does not have.
pub const UNKNOWN_OPCODE: [u8; 8] = [1, 0, 0, 0, 7, 0, 8, 0];
