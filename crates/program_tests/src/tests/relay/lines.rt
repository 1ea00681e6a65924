//! Lines of what came from both sides, and what is written for them.

use crate::tests::{log, text_of};
use std::alloc::Global;
use std::test::Fail;
use test_kit::log::{is_text, row_tells, tells};
use wl_relay::{ArriveError, Stop, run, status, tell};

/// A row of a table of inputs: what a failing one is named, its lines, and what is written for them: the output, in brackets what
/// is told on standard error, and the exit status.
pub struct Row {
    name: &'static str,
    pub lines: &'static str,
    pub written: &'static str,
}

/// What was written, what is told of the end, and the status.
fn ended_log(alloc: Global, output: Vec<u8>, ended: Result<(), Stop>) -> Result<String, Fail> {
    let mut told = Vec::new(alloc);
    if tell(ended, &mut told).is_err() {
        return Err(Fail::new("there is memory"));
    }
    log(output, told, status(ended))
}

/// What is written for these lines.
fn written(alloc: Global, lines: &str) -> Result<String, Fail> {
    let mut reader = lines.as_bytes();
    let mut output = Vec::new(alloc);
    let ended = run(alloc, &mut reader, &mut output);
    ended_log(alloc, output, ended)
}

/// Inputs, and what is written for them. The interfaces of their tables are `seat`, whose device makes offers, which take a
/// descriptor.
pub static ROWS: [Row; 32] = [
    Row {
        name: "messages leave as they came",
        lines: "interface seat 5\nrequest get_device 1 - new:5\ninterface device 3\nrequest destroy 1 destructor\nevent offered 1 - new:6\nevent chosen 1 - object?:6\ninterface offer 3\nrequest take 1 - string fd\nrequest destroy 1 destructor\nevent kind 1 - string\nrelay\nclient 0100000001000c000200000002000000000020000100000005000000736561740000000005000000030000000300000000000c0004000000 -\nserver 0400000000000c00000000ff000000ff000018000b000000746578742f706c61696e00000400000001000c00000000ff -\nclient 000000ff00001b000b000000746578742f706c61696e0000010203 7\n",
        written: "log  -> wl_display@1.get_registry(new id wl_registry@2)\nlog  -> wl_registry@2.bind(1, \"seat\", 5, new id [unknown]@3)\nlog  -> seat@3.get_device(new id device@4)\nto server 0100000001000c000200000002000000000020000100000005000000736561740000000005000000030000000300000000000c0004000000 -\nok\nlog device@4.offered(new id offer@4278190080)\nlog offer@4278190080.kind(\"text/plain\")\nlog device@4.chosen(offer@4278190080)\nto client 0400000000000c00000000ff000000ff000018000b000000746578742f706c61696e00000400000001000c00000000ff -\nok\nlog  -> offer@4278190080.take(\"text/plain\", fd 7)\nto server 000000ff00001b000b000000746578742f706c61696e0000010203 7\nok\n[] 0",
    },
    Row {
        name: "a message byte by byte",
        lines: "interface seat 5\nrequest get_device 1 - new:5\ninterface device 3\nrequest destroy 1 destructor\nevent offered 1 - new:6\nevent chosen 1 - object?:6\ninterface offer 3\nrequest take 1 - string fd\nrequest destroy 1 destructor\nevent kind 1 - string\nrelay\nclient 01 -\nclient 00 -\nclient 00 -\nclient 00 -\nclient 00 -\nclient 00 -\nclient 0c -\nclient 00 -\nclient 02 -\nclient 00 -\nclient 00 -\nclient 00 -\n",
        written: "ok\nok\nok\nok\nok\nok\nok\nok\nok\nok\nok\nlog  -> wl_display@1.sync(new id wl_callback@2)\nto server 0100000000000c0002000000 -\nok\n[] 0",
    },
    Row {
        name: "a number of the server that is used again",
        lines: "interface seat 5\nrequest get_device 1 - new:5\ninterface device 3\nrequest destroy 1 destructor\nevent offered 1 - new:6\nevent chosen 1 - object?:6\ninterface offer 3\nrequest take 1 - string fd\nrequest destroy 1 destructor\nevent kind 1 - string\nrelay\nclient 0100000001000c000200000002000000000020000100000005000000736561740000000005000000030000000300000000000c0004000000 -\nserver 0400000000000c00000000ff -\nclient 000000ff01000800 -\nserver 000000ff00001400050000006c61746500000000 -\nserver 0400000000000c00000000ff -\n",
        written: "log  -> wl_display@1.get_registry(new id wl_registry@2)\nlog  -> wl_registry@2.bind(1, \"seat\", 5, new id [unknown]@3)\nlog  -> seat@3.get_device(new id device@4)\nto server 0100000001000c000200000002000000000020000100000005000000736561740000000005000000030000000300000000000c0004000000 -\nok\nlog device@4.offered(new id offer@4278190080)\nto client 0400000000000c00000000ff -\nok\nlog  -> offer@4278190080.destroy()\nto server 000000ff01000800 -\nok\nlog offer@4278190080.kind(\"late\")\nto client 000000ff00001400050000006c61746500000000 -\nok\nlog device@4.offered(new id offer@4278190080)\nto client 0400000000000c00000000ff -\nok\n[] 0",
    },
    Row {
        name: "a number of the client that is used again",
        lines: "interface seat 5\nrequest get_device 1 - new:5\ninterface device 3\nrequest destroy 1 destructor\nevent offered 1 - new:6\nevent chosen 1 - object?:6\ninterface offer 3\nrequest take 1 - string fd\nrequest destroy 1 destructor\nevent kind 1 - string\nrelay\nclient 0100000000000c0002000000 -\nserver 0200000000000c00090000000100000001000c0002000000 -\nclient 0100000001000c0002000000 -\n",
        written: "log  -> wl_display@1.sync(new id wl_callback@2)\nto server 0100000000000c0002000000 -\nok\nlog wl_callback@2.done(9)\nlog wl_display@1.delete_id(2)\nto client 0200000000000c00090000000100000001000c0002000000 -\nok\nlog  -> wl_display@1.get_registry(new id wl_registry@2)\nto server 0100000001000c0002000000 -\nok\n[] 0",
    },
    Row {
        name: "a descriptor that comes later",
        lines: "interface seat 5\nrequest get_device 1 - new:5\ninterface device 3\nrequest destroy 1 destructor\nevent offered 1 - new:6\nevent chosen 1 - object?:6\ninterface offer 3\nrequest take 1 - string fd\nrequest destroy 1 destructor\nevent kind 1 - string\nrelay\nclient 0100000001000c000200000002000000000020000100000005000000736561740000000005000000030000000300000000000c0004000000 -\nserver 0400000000000c00000000ff -\nclient 000000ff000010000200000061000000 -\nclient 0100000000000c0005000000 8,9\n",
        written: "log  -> wl_display@1.get_registry(new id wl_registry@2)\nlog  -> wl_registry@2.bind(1, \"seat\", 5, new id [unknown]@3)\nlog  -> seat@3.get_device(new id device@4)\nto server 0100000001000c000200000002000000000020000100000005000000736561740000000005000000030000000300000000000c0004000000 -\nok\nlog device@4.offered(new id offer@4278190080)\nto client 0400000000000c00000000ff -\nok\nok\nlog  -> offer@4278190080.take(\"a\", fd 8)\nlog  -> wl_display@1.sync(new id wl_callback@5)\nto server 000000ff0000100002000000610000000100000000000c0005000000 8\nok\n[] 0",
    },
    Row {
        name: "announcements",
        lines: "interface seat 5\nrequest get_device 1 - new:5\ninterface device 3\nrequest destroy 1 destructor\nevent offered 1 - new:6\nevent chosen 1 - object?:6\ninterface offer 3\nrequest take 1 - string fd\nrequest destroy 1 destructor\nevent kind 1 - string\nrelay\nclient 0100000001000c0002000000 -\nserver 0200000000001c0001000000050000007365617400000000070000000200000000001c0002000000080000006e6f5f7375636800010000000200000000001c0003000000070000006465766963650000030000000200000001000c0002000000 -\n",
        written: "log  -> wl_display@1.get_registry(new id wl_registry@2)\nto server 0100000001000c0002000000 -\nok\nlog wl_registry@2.global(1, \"seat\", 7) [lowered to 5]\nlog wl_registry@2.global(2, \"no_such\", 1) [dropped]\nlog wl_registry@2.global(3, \"device\", 3)\nlog wl_registry@2.global_remove(2)\nto client 0200000000001c0001000000050000007365617400000000050000000200000000001c0003000000070000006465766963650000030000000200000001000c0002000000 -\nok\n[] 0",
    },
    Row {
        name: "an interface that the table lacks",
        lines: "interface seat 5\nrequest get_device 1 - new:5\ninterface device 3\nrequest destroy 1 destructor\nevent offered 1 - new:6\nevent chosen 1 - object?:6\ninterface offer 3\nrequest take 1 - string fd\nrequest destroy 1 destructor\nevent kind 1 - string\nrelay\nclient 0100000001000c0002000000020000000000200002000000080000006e6f5f737563680001000000030000000300000000000800 -\nclient 0300000001000800 4\n",
        written: "log  -> wl_display@1.get_registry(new id wl_registry@2)\nlog  -> wl_registry@2.bind(2, \"no_such\", 1, new id [unknown]@3)\nlog [client is no longer read: unknown-interface]\nto server 0100000001000c0002000000020000000000200002000000080000006e6f5f737563680001000000030000000300000000000800 -\nok\nto server 0300000001000800 4\nok\n[] 0",
    },
    Row {
        name: "a log of an interface that the table lacks",
        lines: "interface seat 5\nrequest get_device 1 - new:5\ninterface device 3\nrequest destroy 1 destructor\nevent offered 1 - new:6\nevent chosen 1 - object?:6\ninterface offer 3\nrequest take 1 - string fd\nrequest destroy 1 destructor\nevent kind 1 - string\nlog\nclient 0100000001000c0002000000 -\nserver 0200000000001c0001000000050000007365617400000000070000000200000000001c0002000000080000006e6f5f737563680001000000 -\nclient 020000000000200002000000080000006e6f5f737563680001000000030000000300000005000800 -\n",
        written: "log  -> wl_display@1.get_registry(new id wl_registry@2)\nok\nlog wl_registry@2.global(1, \"seat\", 7)\nlog wl_registry@2.global(2, \"no_such\", 1)\nok\nlog  -> wl_registry@2.bind(2, \"no_such\", 1, new id [unknown]@3)\nlog  -> [unknown]@3.[5]\nok\n[] 0",
    },
    Row {
        name: "a number that leaves one out",
        lines: "interface seat 5\nrequest get_device 1 - new:5\ninterface device 3\nrequest destroy 1 destructor\nevent offered 1 - new:6\nevent chosen 1 - object?:6\ninterface offer 3\nrequest take 1 - string fd\nrequest destroy 1 destructor\nevent kind 1 - string\nrelay\nclient 0100000000000c0003000000 -\nserver 01000000000018000100000000000000030000006e6f0000 -\n",
        written: "log  -> wl_display@1.sync(new id wl_callback@3)\nlog [client is no longer read: new-id]\nto server 0100000000000c0003000000 -\nok\nlog wl_display@1.error(wl_display@1, 0, \"no\")\nto client 01000000000018000100000000000000030000006e6f0000 -\nok\n[] 0",
    },
    Row {
        name: "a length below eight",
        lines: "interface seat 5\nrequest get_device 1 - new:5\ninterface device 3\nrequest destroy 1 destructor\nevent offered 1 - new:6\nevent chosen 1 - object?:6\ninterface offer 3\nrequest take 1 - string fd\nrequest destroy 1 destructor\nevent kind 1 - string\nrelay\nserver 0100000000000400 -\nclient 0100000000000c0002000000 -\n",
        written: "log [server is no longer read: malformed]\nto client 0100000000000400 -\nok\nlog  -> wl_display@1.sync(new id wl_callback@2)\nto server 0100000000000c0002000000 -\nok\n[] 0",
    },
    Row {
        name: "tokens without bytes wait",
        lines: "interface seat 5\nrequest get_device 1 - new:5\ninterface device 3\nrequest destroy 1 destructor\nevent offered 1 - new:6\nevent chosen 1 - object?:6\ninterface offer 3\nrequest take 1 - string fd\nrequest destroy 1 destructor\nevent kind 1 - string\nrelay\nclient - 5\nclient 0100000007000800 -\n",
        written: "ok\nlog [client is no longer read: malformed]\nto server 0100000007000800 5\nok\n[] 0",
    },
    Row {
        name: "a client that takes the number of the display",
        lines: "relay\nclient 0100000000000c0001000000 -\nserver 01000000000018000100000000000000030000006e6f0000 -\n",
        written: "log  -> wl_display@1.sync(new id wl_callback@1)\nlog [client is no longer read: new-id]\nto server 0100000000000c0001000000 -\nok\nlog wl_display@1.error(wl_display@1, 0, \"no\")\nto client 01000000000018000100000000000000030000006e6f0000 -\nok\n[] 0",
    },
    Row {
        name: "a server that deletes the display",
        lines: "relay\nserver 0100000001000c0001000000 -\nclient 0100000000000c0002000000 -\n",
        written: "log wl_display@1.delete_id(1)\nto client 0100000001000c0001000000 -\nok\nlog  -> wl_display@1.sync(new id wl_callback@2)\nto server 0100000000000c0002000000 -\nok\n[] 0",
    },
    Row {
        name: "a number that is not deleted yet",
        lines: "relay\nclient 0100000000000c00020000000100000001000c0002000000 -\nserver 0200000000000c0009000000 -\n",
        written: "log  -> wl_display@1.sync(new id wl_callback@2)\nlog  -> wl_display@1.get_registry(new id wl_registry@2)\nlog [client is no longer read: new-id]\nto server 0100000000000c00020000000100000001000c0002000000 -\nok\nlog wl_callback@2.done(9)\nto client 0200000000000c0009000000 -\nok\n[] 0",
    },
    Row {
        name: "numbers that are used again after a fault of the server, but not that of the display",
        lines: "relay\nclient 0100000000000c0002000000 -\nserver 0100000007000800 -\nserver 0200000000000c00090000000100000001000c0002000000 -\nclient 0100000000000c0002000000 -\nclient 0100000000000c0001000000 -\n",
        written: "log  -> wl_display@1.sync(new id wl_callback@2)\nto server 0100000000000c0002000000 -\nok\nlog [server is no longer read: malformed]\nto client 0100000007000800 -\nok\nto client 0200000000000c00090000000100000001000c0002000000 -\nok\nlog  -> wl_display@1.sync(new id wl_callback@2)\nto server 0100000000000c0002000000 -\nok\nlog  -> wl_display@1.sync(new id wl_callback@1)\nlog [client is no longer read: new-id]\nto server 0100000000000c0001000000 -\nok\n[] 0",
    },
    Row {
        name: "a number of the server that the client takes",
        lines: "relay\nclient 0100000000000c00000000ff -\n",
        written: "log  -> wl_display@1.sync(new id wl_callback@4278190080)\nlog [client is no longer read: new-id]\nto server 0100000000000c00000000ff -\nok\n[] 0",
    },
    Row {
        name: "a number of the client that the server takes",
        lines: "interface seat 1\nevent made 1 - new:4\nrelay\nclient 0100000001000c00020000000200000000002000010000000500000073656174000000000100000003000000 -\nserver 0300000000000c0004000000 -\n",
        written: "log  -> wl_display@1.get_registry(new id wl_registry@2)\nlog  -> wl_registry@2.bind(1, \"seat\", 1, new id [unknown]@3)\nto server 0100000001000c00020000000200000000002000010000000500000073656174000000000100000003000000 -\nok\nlog seat@3.made(new id seat@4)\nlog [server is no longer read: new-id]\nto client 0300000000000c0004000000 -\nok\n[] 0",
    },
    Row {
        name: "the number 0",
        lines: "relay\nclient 0100000000000c0000000000 -\n",
        written: "log  -> wl_display@1.sync(new id wl_callback@nil)\nlog [client is no longer read: new-id]\nto server 0100000000000c0000000000 -\nok\n[] 0",
    },
    Row {
        name: "a bind without a name",
        lines: "relay\nclient 0100000001000c0002000000020000000000180001000000000000000100000003000000 -\n",
        written: "log  -> wl_display@1.get_registry(new id wl_registry@2)\nlog  -> wl_registry@2.bind(1, nil, 1, new id [unknown]@3)\nlog [client is no longer read: malformed]\nto server 0100000001000c0002000000020000000000180001000000000000000100000003000000 -\nok\n[] 0",
    },
    Row {
        name: "a log of a bind without a name",
        lines: "log\nclient 0100000001000c0002000000020000000000180001000000000000000100000003000000 -\n",
        written: "log  -> wl_display@1.get_registry(new id wl_registry@2)\nlog  -> wl_registry@2.bind(1, nil, 1, new id [unknown]@3)\nlog [client is no longer read: malformed]\nok\n[] 0",
    },
    Row {
        name: "a log of an opcode that the table lacks",
        lines: "log\nclient 0100000007000800 -\nclient 0100000000000c0002000000 -\n",
        written: "log  -> [unknown]@1.[7]\nok\nlog  -> wl_display@1.sync(new id wl_callback@2)\nok\n[] 0",
    },
    Row {
        name: "29 descriptors in two sends",
        lines: "relay\nclient 01 1,2,3,4,5,6,7,8,9,10,11,12,13,14,15,16,17,18,19,20,21,22,23,24,25,26,27,28\nclient 00000007000800 29\n",
        written: "ok\nlog [client is no longer read: malformed]\nto server 01 1,2,3,4,5,6,7,8,9,10,11,12,13,14,15,16,17,18,19,20,21,22,23,24,25,26,27,28\nto server 00000007000800 29\nok\n[] 0",
    },
    Row {
        name: "hex in upper case",
        lines: "relay\nclient 0a -\nclient 0A -\n",
        written: "ok\n[line 3: bad line\n] 2",
    },
    Row {
        name: "a digit of hex too few",
        lines: "relay\nclient 010 -\n",
        written: "[line 2: bad line\n] 2",
    },
    Row {
        name: "a descriptor with a zero before it",
        lines: "relay\nclient 01 7\nclient 01 08\n",
        written: "ok\n[line 3: bad line\n] 2",
    },
    Row {
        name: "a version with a zero before it",
        lines: "interface a 5\ninterface b 05\nrelay\n",
        written: "[line 2: bad line\n] 2",
    },
    Row {
        name: "a word for no destructor that is none",
        lines: "interface a 1\nrequest b 1 none\nrelay\n",
        written: "[line 2: bad line\n] 2",
    },
    Row {
        name: "an interface at a place with a zero before it",
        lines: "interface a 1\nrequest b 1 - object:04\nrelay\n",
        written: "[line 2: bad line\n] 2",
    },
    Row {
        name: "a line that is none",
        lines: "interface seat 5\nrequest get_device 1 - new:5\ninterface device 3\nrequest destroy 1 destructor\nevent offered 1 - new:6\nevent chosen 1 - object?:6\ninterface offer 3\nrequest take 1 - string fd\nrequest destroy 1 destructor\nevent kind 1 - string\nrelay\nnobody 01 -\n",
        written: "[line 12: bad line\n] 2",
    },
    Row {
        name: "a row that is none",
        lines: "interface a 1\nrequest b\nrelay\n",
        written: "[line 2: bad line\n] 2",
    },
    Row {
        name: "two interfaces of one name",
        lines: "interface a 1\ninterface a 2\nrelay\n",
        written: "[bad table: interface 1: the name is taken\n] 2",
    },
    Row {
        name: "no table",
        lines: "interface a 1\n",
        written: "[line 2: bad line\n] 2",
    },
];

/// Each input has its output.
#[test]
fn rows(rt: HostRuntime) -> Result<(), Fail> {
    for row in &ROWS {
        row_tells(&rt, row.name, written(rt.alloc(), row.lines), row.written)?;
    }
    Ok(())
}

/// The text of too many tokens. The program writes it for no input: there it is a bad line.
#[test]
fn text_of_too_many(rt: HostRuntime) -> Result<(), Fail> {
    let error = ArriveError::TooManyTokens;
    let text = format!(in rt.alloc(); "{error}")?;
    is_text(&rt, text.as_str(), "more than 28 tokens came")
}

/// A side whose first message lacks a descriptor is given up once the buffer is full, and not before. 16 lines of 4096 zeros fill
/// it. The last line that is written says that the side is no longer read, and all goes on.
#[test]
fn full_buffer(rt: HostRuntime) -> Result<(), Fail> {
    let alloc = rt.alloc();
    let line = text_of(alloc, &[("client ", 1), ("00", 4096), (" -\n", 1)])?;
    let lines = text_of(
        alloc,
        &[
            (
                "interface seat 1\nrequest take 1 - fd\nrelay\nclient 0100000001000c000200000002000000000020000100000005000000736561740000000001000000030000000300000000000800 -\n",
                1,
            ),
            (line.as_str(), 16),
        ],
    )?;
    let text = text_of(
        alloc,
        &[
            (
                "log  -> wl_display@1.get_registry(new id wl_registry@2)\nlog  -> wl_registry@2.bind(1, \"seat\", 1, new id [unknown]@3)\nto server 0100000001000c00020000000200000000002000010000000500000073656174000000000100000003000000 -\nok\n",
                1,
            ),
            ("ok\n", 15),
            (
                "log [client is no longer read: missing-descriptor]\nto server 0300000000000800",
                1,
            ),
            ("00", 4096 * 16),
            (" -\nok\n[] 0", 1),
        ],
    )?;
    tells(&rt, written(alloc, lines.as_str()), text.as_str())
}
