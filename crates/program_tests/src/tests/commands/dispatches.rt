//! A dispatch that sends much.

use crate::tests::lines::{Call, printed};
use crate::tests::text_of;
use std::test::Fail;
use test_kit::log::tells;

/// `wl_display.sync` with the new id 2, in hex.
const SYNC: &str = "0100000000000c0002000000";

/// The first message that answers it.
const DONE: &str = "0200000000000c0000000000";

/// The second.
const DELETE_ID: &str = "0100000001000c0002000000";

/// Both.
const ANSWER: &str = "0200000000000c00000000000100000001000c0002000000";

/// What a client is sent in its dispatch stands after the answer. 180 syncs are answered by 4320 bytes, of which 4096 may
/// wait: the message after the first 4092 is sent with those.
#[test]
fn sent_in_a_dispatch(rt: HostRuntime) -> Result<(), Fail> {
    let input = text_of(
        rt.alloc(),
        &[
            ("client\nin 0 ", 1),
            (SYNC, 180),
            (" -\ndispatch 0\nflush\n", 1),
        ],
    )?;
    let answers = text_of(
        rt.alloc(),
        &[
            ("client 0 1\nok\ndispatched 180\nout 0 ", 1),
            (ANSWER, 170),
            (DONE, 1),
            (" -\nok\nout 0 ", 1),
            (DELETE_ID, 1),
            (ANSWER, 9),
            (" -\n", 1),
        ],
    )?;
    let output = printed(rt.alloc(), &Call::Run, input.as_bytes());
    tells(&rt, output, answers.as_str())
}
