//! Requests: what is sent, which are refused, and those that end an object or carry a descriptor.

use super::acts::{Act, Cue, Look, Row, rows_tell};
use crate::kit::values::{Object, Request};
use std::test::Fail;
use test_kit::quad::{DESTROY, PAIR};
use wl_wire::{InterfaceId, WL_CALLBACK_INTERFACE, WL_REGISTRY_INTERFACE};

/// The runs, and what they tell.
static ROWS: [Row; 9] = [
    Row {
        name: "first sync",
        acts: &[Act::Send(Request::Sync), Act::Flush, Act::Look(Look::Sent)],
        told: "sent: 2, 1\nflushed\n0100000000000c0002000000\n",
    },
    // The registry and its first object.
    Row {
        name: "first bind",
        acts: &[
            Act::Bound,
            Act::Look(Look::Text(Object::Quad)),
            Act::Flush,
            Act::Look(Look::Sent),
        ],
        told: "sent: 2, 1\nsent: 3, 2\nquad@3\nflushed\n0100000001000c00020000000200000000002000010000000500000071756164000000000300000003000000\n",
    },
    // Refused requests change neither the next number nor the next serial.
    Row {
        name: "refused syncs",
        acts: &[
            Act::Send(Request::Bare(Object::Null, 42)),
            Act::Send(Request::Bare(Object::Display, 2)),
            Act::Send(Request::SyncOfNumber),
            Act::SendWith(Request::Sync, (Some(5), Some((WL_REGISTRY_INTERFACE, 1)))),
            Act::SendWith(Request::Sync, (Some(5), Some((WL_CALLBACK_INTERFACE, 2)))),
            Act::SendWith(Request::Sync, (None, None)),
            Act::Send(Request::SyncOf(Object::Display)),
            Act::Send(Request::Sync),
        ],
        told: "Invalid ObjectId\nthe interface has no request of that opcode\nthe arguments do not fit the request's signature\nthe table names another interface for the new object\nthe new object's version is not its sender's\nthe new object gets no user data\nthe new id is not null\nsent: 2, 1\n",
    },
    // Binds and object arguments that are refused.
    Row {
        name: "refused objects",
        acts: &[
            Act::Bound,
            Act::SendWith(Request::Bind, (Some(6), Some((InterfaceId(6), 1)))),
            Act::SendWith(Request::Bind, (Some(6), None)),
            Act::Send(Request::Link(Object::Quad, Object::Null, Object::Registry)),
            Act::Send(Request::Link(Object::Quad, Object::Quad, Object::Null)),
            Act::Send(Request::Link(Object::Quad, Object::Stranger, Object::Quad)),
            Act::Send(Request::Link(Object::Quad, Object::Null, Object::Quad)),
            Act::Send(Request::Sync),
        ],
        told: "sent: 2, 1\nsent: 3, 2\nthe new object's interface is not in the table\nthe new object's interface is not named\nan object argument has another interface\nan object argument is null\nInvalid ObjectId\nsent: 0, 0\nsent: 4, 3\n",
    },
    // A request that ends its sender: it is noted, and no longer the client's.
    Row {
        name: "destructor request",
        acts: &[
            Act::Bound,
            Act::Send(Request::Make),
            Act::Look(Look::Info(Object::Second)),
            Act::Send(Request::Bare(Object::Quad, DESTROY)),
            Act::Notes,
            Act::Look(Look::Info(Object::Quad)),
            Act::Look(Look::Data(Object::Quad)),
            Act::Send(Request::Bare(Object::Quad, DESTROY)),
            Act::Send(Request::Bare(Object::Quad, 9)),
            Act::Send(Request::Link(Object::Second, Object::Null, Object::Quad)),
            Act::Flush,
            Act::Look(Look::Sent),
        ],
        told: "sent: 2, 1\nsent: 3, 2\nsent: 4, 3\nversion 3\nsent: 0, 0\nnotes: 3, 2\nInvalid ObjectId\ndata 6\nInvalid ObjectId\nthe interface has no request of that opcode\nInvalid ObjectId\nflushed\n0100000001000c000200000002000000000020000100000005000000717561640000000003000000030000000300000001000c00040000000300000002000800\n",
    },
    // A request with a descriptor, and two calls that the display refuses.
    Row {
        name: "descriptor of a request",
        acts: &[
            Act::Bound,
            Act::Flush,
            Act::Script(Cue::TakeSent),
            Act::Send(Request::Give(1)),
            Act::Flush,
            Act::Look(Look::Sent),
            Act::Destroy(Object::Display),
            Act::Look(Look::Data(Object::Display)),
        ],
        told: "sent: 2, 1\nsent: 3, 2\nflushed\nsent: 0, 0\nflushed\ndescriptor 7 with 0300000004001400000000000100000001000000\nInvalid ObjectId\nInvalid ObjectId\n",
    },
    // More arguments than a message holds inline.
    Row {
        name: "request of five arguments",
        acts: &[
            Act::Bound,
            Act::SendWith(Request::Bind, (Some(6), Some((PAIR, 1)))),
            Act::Send(Request::Make),
            Act::Flush,
            Act::Script(Cue::TakeSent),
            Act::Send(Request::Join(Object::Third, Object::Quad)),
            Act::Flush,
            Act::Look(Look::Sent),
            Act::Look(Look::LastError),
        ],
        told: "sent: 2, 1\nsent: 3, 2\nsent: 4, 3\nsent: 5, 4\nflushed\nsent: 0, 0\nflushed\ndescriptor 9 with 04000000000020000500000003000000030000006e6f00000100000001000000\nno error\n",
    },
    // A request of 5016 bytes after the 44 of the bind: the buffer of 4096 bytes grows, and a send takes 4096 at most.
    Row {
        name: "buffer grows for a request",
        acts: &[
            Act::Bound,
            Act::Send(Request::Give(5000)),
            Act::Look(Look::Lengths),
            Act::Flush,
            Act::Look(Look::Lengths),
            Act::Look(Look::LastError),
        ],
        told: "sent: 2, 1\nsent: 3, 2\nsent: 0, 0\nflushed\n4096 bytes, 1 descriptors\n964 bytes, 0 descriptors\nno error\n",
    },
    // The buffer is full, and may not grow: what waits is sent first, and the request with its descriptor after it.
    Row {
        name: "request behind a flush for room",
        acts: &[
            Act::Limit(0),
            Act::Bound,
            Act::Send(Request::Give(4036)),
            Act::Send(Request::Give(1)),
            Act::Flush,
            Act::Look(Look::Lengths),
            Act::Look(Look::LastError),
        ],
        told: "sent: 2, 1\nsent: 3, 2\nsent: 0, 0\nsent: 0, 0\nflushed\n4096 bytes, 1 descriptors\n20 bytes, 1 descriptors\nno error\n",
    },
];

/// Each run tells what it has to.
#[test]
fn rows(rt: HostRuntime) -> Result<(), Fail> {
    rows_tell(&rt, &ROWS)
}
