//! Lines that are no commands.

use crate::tests::lines::{Call, Group, group_prints};
use std::test::Fail;

/// Lines that are no commands, by what is wrong with them.
static BAD: [Group; 10] = [
    // A line with an empty word.
    Group {
        name: "empty words",
        inputs: &[
            b"global  3",
            b"read  0",
            b"read 0 ",
            b" read 0",
            b"in 0  -",
            b"in 0 - ",
            b"client ",
            b" ",
            b" client",
            b"accept 0 ",
            b"fail 0 in ",
            b"global  ",
            b"disable ",
            b"dispatch ",
            b"dispatch 0 ",
            b"dispatch  0",
        ],
    },
    // A line with a word that is no command, or in the wrong number.
    Group {
        name: "unknown words",
        inputs: &[
            b"Client",
            b"quit",
            b"client 0",
            b"flush 0",
            b"cleanup 0",
            b"notes 0",
            b"read",
            b"finish",
            b"kill",
            b"disable",
            b"remove",
            b"global",
            b"global quad",
            b"global quad 3 3",
            b"in",
            b"in 0",
            b"in 0 -",
            b"in 0 - - -",
            b"accept",
            b"accept 0",
            b"accept 0 1 2",
            b"fail",
            b"fail 0",
            b"fail 0 in",
            b"fail 0 in Pipe 5",
            b"read 0 0",
            b"dispatch",
            b"dispatch 0 0",
        ],
    },
    // A line with a command of another program.
    Group {
        name: "other programs",
        inputs: &[b"record", b"replay", b"1 client"],
    },
    // A line with a number, or numbers, written otherwise.
    Group {
        name: "numbers",
        inputs: &[
            b"read 00",
            b"read +0",
            b"read -0",
            b"read 0x0",
            b"read 0.",
            b"read a",
            b"read 4294967296",
            b"read 18446744073709551616",
            b"kill 01",
            b"disable 01",
            b"disable -1",
            b"remove +1",
            b"global quad 03",
            b"global quad x",
            b"global nothing x",
            b"accept 0 01",
            b"accept 0 -",
            b"accept 0 4294967296",
            b"finish 00",
            b"dispatch 00",
            b"dispatch -",
            b"dispatch 0,",
            b"dispatch ,0",
            b"dispatch 0,,0",
            b"dispatch 0;0",
            b"dispatch 0,+0",
            b"dispatch 4294967296",
        ],
    },
    // A line with bytes that are written otherwise.
    Group {
        name: "bytes",
        inputs: &[
            b"in 0 0 -",
            b"in 0 000 -",
            b"in 0 0A -",
            b"in 0 FF -",
            b"in 0 0g -",
            b"in 0 g0 -",
            b"in 0 0- -",
            b"in 0 -- -",
            b"in 0 0x00 -",
            b"in 0 00,00 -",
        ],
    },
    // A line with tokens that are written otherwise.
    Group {
        name: "tokens",
        inputs: &[
            b"in 0 - 2147483648",
            b"in 0 - 4294967296",
            b"in 0 - -1",
            b"in 0 - +1",
            b"in 0 - 01",
            b"in 0 - 1,",
            b"in 0 - ,1",
            b"in 0 - 1,,2",
            b"in 0 - ,",
            b"in 0 - -,1",
            b"in 0 - 1;2",
        ],
    },
    // A line with a fault that is none.
    Group {
        name: "faults",
        inputs: &[
            b"fail 0 in OutOfMemory",
            b"fail 0 in pipe",
            b"fail 0 in Other(5)",
            b"fail 0 in Io",
            b"fail 0 up Pipe",
            b"fail 0 In Pipe",
            b"fail 0 out",
            b"fail in 0 Pipe",
        ],
    },
    // A line with another character.
    Group {
        name: "characters",
        inputs: &[
            b"client\r",
            b"client\t",
            b"\tclient",
            b"read\t0",
            b"read 0\r",
            b"client\0",
            b"read 0\0",
            b"client,",
            b"read \xd9\xa0",
            b"\xef\xbb\xbfclient",
            b"client\xc2\xa0",
        ],
    },
    // A line with no text.
    Group {
        name: "no text",
        inputs: &[
            b"global \xff 3",
            b"client\xff",
            b"\xc3",
            b"global \xed\xa0\x80 1",
        ],
    },
    // A line with a slot at which no client was inserted.
    Group {
        name: "slots",
        inputs: &[
            b"read 1",
            b"finish 1",
            b"kill 1",
            b"in 1 - -",
            b"accept 1 5",
            b"fail 1 in Pipe",
            b"fail 1 out Pipe",
            b"read 4294967295",
            b"dispatch 1",
            b"dispatch 0,1",
            b"dispatch 1,0",
            b"dispatch 4294967295",
        ],
    },
];

/// None of the lines is a command, after a line that inserts a client.
#[test]
fn bad_lines(rt: HostRuntime) -> Result<(), Fail> {
    let text = "client 0 1\n[Err(BadLine(2))]";
    for group in &BAD {
        group_prints(&rt, &Call::Run, b"client\n", group, text)?;
    }
    Ok(())
}
