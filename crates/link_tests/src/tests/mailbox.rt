//! The transport by mailbox: what its host and a link ask of it, as a list of calls, and what each tells.

use super::run::{Act, Fact, link_log};
use super::script::tell_received;
use std::alloc::Global;
use std::collections::VecDeque;
use std::test::Fail;
use test_kit::log::{holds, row_tells, tells};
use test_kit::message::{Arg, tell_bytes};
use wl_link::{Ending, Mailbox, MailboxError, Transport};
use wl_wire::{IoFault, Token};

/// A call of a mailbox.
#[derive(Clone, Copy)]
enum Call {
    /// Bytes arrive. It is told if they are refused.
    Arrive(&'static [u8], &'static [Token]),
    /// So many tokens arrive, without bytes. It is told if they are refused.
    ArriveTokens(usize),
    /// This comes after the arrivals.
    End(Ending),
    /// Receives into so many bytes, which were 0.
    Receive(usize),
    /// How many bytes and tokens were not received yet.
    Left,
    /// What comes after them.
    Ending,
    /// Sends bytes.
    Send(&'static [u8], &'static [Token]),
    /// Sends a byte with so many tokens.
    SendTokens(usize),
    /// So many bytes were sent by the host.
    Sent(usize),
    /// What the host is to send.
    Waiting,
    /// Sets the room.
    SetRoom(usize),
    /// Sends fail.
    FailSends(IoFault),
}

/// Puts bytes in; a second time if memory was refused and `again` is set.
fn arrived(
    mailbox: &mut Mailbox,
    bytes: &[u8],
    tokens: &[Token],
    again: bool,
) -> Result<(), MailboxError> {
    match mailbox.arrive(bytes, tokens) {
        Err(MailboxError::OutOfMemory) if again => mailbox.arrive(bytes, tokens),
        answer => answer,
    }
}

/// Sends bytes; a second time if memory was refused and `again` is set.
fn sent(
    mailbox: &mut Mailbox,
    bytes: &[u8],
    tokens: &[Token],
    again: bool,
) -> Result<usize, IoFault> {
    match mailbox.send_msg(bytes, tokens) {
        Err(IoFault::OutOfMemory) if again => mailbox.send_msg(bytes, tokens),
        answer => answer,
    }
}

/// Receives; a second time if memory was refused and `again` is set.
fn received(
    mailbox: &mut Mailbox,
    buffer: &mut [u8],
    tokens: &mut VecDeque<Token>,
    again: bool,
) -> Result<usize, IoFault> {
    match mailbox.rcv_msg(buffer, tokens) {
        Err(IoFault::OutOfMemory) if again => mailbox.rcv_msg(buffer, tokens),
        answer => answer,
    }
}

/// Tells why bytes were not put in.
fn tell_refused(log: &mut String, arrived: Result<(), MailboxError>) -> Result<(), Fail> {
    match arrived {
        Ok(()) => Ok(()),
        Err(error) => Ok(writeln!(log, "arrive: {error}")?),
    }
}

/// Tells how many bytes a send took, or why it took none.
fn tell_sent(log: &mut String, sent: Result<usize, IoFault>) -> Result<(), Fail> {
    let written = match sent {
        Ok(count) => writeln!(log, "sent {count}"),
        Err(fault) => writeln!(log, "send: {fault}"),
    };
    Ok(written?)
}

/// Puts in so many tokens.
fn arrive_tokens(
    log: &mut String,
    mailbox: &mut Mailbox,
    count: usize,
    again: bool,
) -> Result<(), Fail> {
    let tokens = Vec::from_elem(*log.allocator(), Token(1), count)?;
    tell_refused(log, arrived(mailbox, &[], &tokens, again))
}

/// Sends a byte with so many tokens.
fn send_tokens(
    log: &mut String,
    mailbox: &mut Mailbox,
    count: usize,
    again: bool,
) -> Result<(), Fail> {
    let tokens = Vec::from_elem(*log.allocator(), Token(1), count)?;
    tell_sent(log, sent(mailbox, &[1], &tokens, again))
}

/// Receives into so many bytes.
fn receive(log: &mut String, mailbox: &mut Mailbox, room: usize, again: bool) -> Result<(), Fail> {
    let alloc = *log.allocator();
    let mut buffer = Vec::from_elem(alloc, 0, room)?;
    let mut tokens = VecDeque::new(alloc);
    let count = received(mailbox, &mut buffer, &mut tokens, again);
    tell_received(log, count, &buffer, tokens.make_contiguous())
}

/// Tells how many bytes and tokens were not received yet.
fn tell_left(log: &mut String, mailbox: &Mailbox) -> Result<(), Fail> {
    let (bytes, tokens) = (mailbox.bytes_left(), mailbox.tokens_left().len());
    Ok(writeln!(log, "left: {bytes} + {tokens}")?)
}

/// Tells what comes after the arrivals.
fn tell_ending(log: &mut String, ending: Ending) -> Result<(), Fail> {
    Ok(writeln!(log, "{ending:?}")?)
}

/// Tells what the host is to send.
fn tell_waiting(log: &mut String, mailbox: &Mailbox) -> Result<(), Fail> {
    write!(log, "waiting: ")?;
    tell_bytes(log, mailbox.bytes(), mailbox.tokens())?;
    Ok(writeln!(log, "")?)
}

/// Makes a call of the host that answers nothing, and tells nothing.
fn tell_mailbox(mailbox: &mut Mailbox, call: Call) {
    match call {
        Call::End(ending) => mailbox.end(ending),
        Call::Sent(count) => mailbox.sent(count),
        Call::SetRoom(room) => mailbox.set_room(room),
        Call::FailSends(fault) => mailbox.fail_sends(fault),
        _ => {}
    }
}

/// Makes the call; a second time if memory was refused and `again` is set.
fn perform(log: &mut String, mailbox: &mut Mailbox, call: Call, again: bool) -> Result<(), Fail> {
    match call {
        Call::Arrive(bytes, tokens) => { tell_refused(log, arrived(mailbox, bytes, tokens, again)) }
        Call::ArriveTokens(count) => arrive_tokens(log, mailbox, count, again),
        Call::Receive(room) => receive(log, mailbox, room, again),
        Call::Left => tell_left(log, mailbox),
        Call::Ending => tell_ending(log, mailbox.ending()),
        Call::Send(bytes, tokens) => tell_sent(log, sent(mailbox, bytes, tokens, again)),
        Call::SendTokens(count) => send_tokens(log, mailbox, count, again),
        Call::Waiting => tell_waiting(log, mailbox),
        _ => {
            tell_mailbox(mailbox, call);
            Ok(())
        }
    }
}

/// Makes the calls; those for which memory was refused are made a second time if `again` is set.
fn perform_all(
    log: &mut String,
    mailbox: &mut Mailbox,
    calls: &[Call],
    again: bool,
) -> Result<(), Fail> {
    for call in calls {
        perform(log, mailbox, *call, again)?;
    }
    Ok(())
}

/// What the calls of a new mailbox tell, as in `perform_all`.
fn mailbox_log(alloc: Global, calls: &[Call], again: bool) -> Result<String, Fail> {
    let mut log = String::new(alloc);
    let mut mailbox = Mailbox::new(alloc);
    let answer = perform_all(&mut log, &mut mailbox, calls, again);
    drop(mailbox);
    answer?;
    Ok(log)
}

/// A row of a table of runs: what a failing one is named, its calls, and what they have to tell.
struct Row {
    name: &'static str,
    calls: &'static [Call],
    told: &'static str,
}

/// Runs of what arrives.
static ARRIVALS: [Row; 8] = [
    Row {
        name: "bytes in pieces, tokens with the first",
        calls: &[
            Call::Arrive(&[1, 2, 3], &[Token(8), Token(9)]),
            Call::Left,
            Call::Receive(2),
            Call::Left,
            Call::Receive(0),
            Call::Receive(5),
            Call::Receive(5),
            Call::Left,
        ],
        told: "left: 3 + 2\nreceived 2 in 01 02, fd 8, fd 9\nleft: 1 + 0\nreceived 0 in \nreceived 1 in 03 00 00 00 00\nreceive: would block\nleft: 0 + 0\n",
    },
    Row {
        name: "arrivals are joined",
        calls: &[
            Call::Arrive(&[1, 2], &[Token(8)]),
            Call::Arrive(&[], &[]),
            Call::Arrive(&[3], &[Token(9)]),
            Call::Receive(1),
            Call::Arrive(&[4], &[Token(7)]),
            Call::Receive(4),
        ],
        told: "received 1 in 01, fd 8, fd 9\nreceived 3 in 02 03 04 00, fd 7\n",
    },
    Row {
        name: "many bytes after a part was received",
        calls: &[
            Call::Arrive(&[1, 2, 3, 4, 5, 6, 7, 8], &[]),
            Call::Receive(5),
            Call::Arrive(&[9, 10, 11, 12, 13, 14], &[]),
            Call::Receive(1),
            Call::Arrive(&[15, 16, 17, 18, 19, 20, 21, 22, 23], &[]),
            Call::Receive(20),
        ],
        told: "received 5 in 01 02 03 04 05\nreceived 1 in 06\nreceived 17 in 07 08 09 0a 0b 0c 0d 0e 0f 10 11 12 13 14 15 16 17 00 00 00\n",
    },
    Row {
        name: "end comes after the bytes and stays",
        calls: &[
            Call::Ending,
            Call::Arrive(&[1], &[]),
            Call::End(Ending::Ended),
            Call::Ending,
            Call::Receive(2),
            Call::Receive(2),
            Call::Receive(2),
            Call::Arrive(&[2], &[]),
            Call::Receive(2),
            Call::Receive(2),
        ],
        told: "Open\nEnded\nreceived 1 in 01 00\nreceived 0 in 00 00\nreceived 0 in 00 00\nreceived 1 in 02 00\nreceived 0 in 00 00\n",
    },
    Row {
        name: "fault comes after the bytes and stays",
        calls: &[
            Call::End(Ending::Failed(IoFault::Other(3))),
            Call::Arrive(&[1], &[]),
            Call::Receive(1),
            Call::Receive(1),
            Call::Receive(1),
            Call::Receive(0),
            Call::End(Ending::Open),
            Call::Receive(1),
        ],
        told: "received 1 in 01\nreceive: os error 3\nreceive: os error 3\nreceived 0 in \nreceive: would block\n",
    },
    Row {
        name: "tokens wait for a byte",
        calls: &[
            Call::Arrive(&[], &[Token(8)]),
            Call::Receive(1),
            Call::End(Ending::Ended),
            Call::Receive(1),
            Call::Left,
            Call::Arrive(&[5], &[Token(9)]),
            Call::Receive(1),
            Call::Left,
        ],
        told: "receive: would block\nreceived 0 in 00\nleft: 0 + 1\nreceived 1 in 05, fd 8, fd 9\nleft: 0 + 0\n",
    },
    Row {
        name: "twenty-eight tokens arrive, and no more",
        calls: &[
            Call::ArriveTokens(29),
            Call::Left,
            Call::ArriveTokens(28),
            Call::Arrive(&[2], &[Token(9)]),
            Call::Left,
            Call::Arrive(&[3], &[]),
            Call::Left,
            Call::Receive(1),
            Call::ArriveTokens(28),
            Call::Left,
        ],
        told: "arrive: more than 28 tokens wait\nleft: 0 + 0\narrive: more than 28 tokens wait\nleft: 0 + 28\nleft: 1 + 28\nreceived 1 in 03, fd 1, fd 1, fd 1, fd 1, fd 1, fd 1, fd 1, fd 1, fd 1, fd 1, fd 1, fd 1, fd 1, fd 1, fd 1, fd 1, fd 1, fd 1, fd 1, fd 1, fd 1, fd 1, fd 1, fd 1, fd 1, fd 1, fd 1, fd 1\nleft: 0 + 28\n",
    },
    Row {
        name: "one token more than fits beside twenty-seven",
        calls: &[
            Call::ArriveTokens(27),
            Call::Arrive(&[], &[Token(8), Token(9)]),
            Call::Left,
            Call::Arrive(&[], &[Token(8)]),
            Call::Left,
        ],
        told: "arrive: more than 28 tokens wait\nleft: 0 + 27\nleft: 0 + 28\n",
    },
];

/// Runs of what is sent.
static SENDS: [Row; 6] = [
    Row {
        name: "host sends in pieces, tokens with the first",
        calls: &[
            Call::Send(&[1, 2, 3], &[Token(8)]),
            Call::Send(&[4, 5], &[Token(9)]),
            Call::Waiting,
            Call::Sent(0),
            Call::Waiting,
            Call::Sent(2),
            Call::Waiting,
            Call::Send(&[6], &[Token(7)]),
            Call::Waiting,
            Call::Sent(9),
            Call::Waiting,
            Call::Send(&[10], &[]),
            Call::Waiting,
        ],
        told: "sent 3\nsent 2\nwaiting: 01 02 03 04 05, fd 8, fd 9\nwaiting: 01 02 03 04 05, fd 8, fd 9\nwaiting: 03 04 05\nsent 1\nwaiting: 03 04 05 06, fd 7\nwaiting: \nsent 1\nwaiting: 0a\n",
    },
    Row {
        name: "many bytes after a part was sent",
        calls: &[
            Call::Send(&[1, 2, 3, 4, 5, 6, 7, 8], &[]),
            Call::Sent(5),
            Call::Send(&[9, 10, 11, 12, 13, 14], &[]),
            Call::Waiting,
            Call::Sent(1),
            Call::Send(&[15, 16, 17, 18, 19, 20, 21, 22, 23], &[]),
            Call::Waiting,
            Call::Sent(17),
            Call::Waiting,
        ],
        told: "sent 8\nsent 6\nwaiting: 06 07 08 09 0a 0b 0c 0d 0e\nsent 9\nwaiting: 07 08 09 0a 0b 0c 0d 0e 0f 10 11 12 13 14 15 16 17\nwaiting: \n",
    },
    Row {
        name: "room",
        calls: &[
            Call::SetRoom(3),
            Call::Send(&[1, 2], &[]),
            Call::Send(&[3, 4], &[]),
            Call::Send(&[5], &[Token(6)]),
            Call::Sent(1),
            Call::Send(&[5], &[Token(6)]),
            Call::Waiting,
            Call::Sent(1),
            Call::Send(&[5], &[Token(6)]),
            Call::Waiting,
            Call::Sent(3),
            Call::SetRoom(0),
            Call::Send(&[7], &[]),
            Call::SetRoom(1),
            Call::Send(&[7], &[]),
            Call::Waiting,
        ],
        told: "sent 2\nsent 2\nsend: would block\nsend: would block\nwaiting: 02 03 04\nsent 1\nwaiting: 03 04 05, fd 6\nsend: would block\nsent 1\nwaiting: 07\n",
    },
    Row {
        name: "tokens without bytes wait for a byte",
        calls: &[
            Call::Send(&[], &[Token(8)]),
            Call::Waiting,
            Call::Sent(0),
            Call::Send(&[1], &[Token(9)]),
            Call::Waiting,
            Call::Sent(1),
            Call::Waiting,
        ],
        told: "sent 0\nwaiting: , fd 8\nsent 1\nwaiting: 01, fd 8, fd 9\nwaiting: \n",
    },
    Row {
        name: "twenty-eight tokens are sent, and no more",
        calls: &[
            Call::SendTokens(29),
            Call::Waiting,
            Call::SendTokens(28),
            Call::Send(&[2], &[Token(9)]),
            Call::Send(&[3], &[]),
            Call::Sent(1),
            Call::Send(&[4], &[Token(9)]),
            Call::Waiting,
        ],
        told: "send: would block\nwaiting: \nsent 1\nsend: would block\nsent 1\nsent 1\nwaiting: 03 04, fd 9\n",
    },
    Row {
        name: "sends fail from then on",
        calls: &[
            Call::Send(&[1], &[Token(8)]),
            Call::FailSends(IoFault::Pipe),
            Call::Send(&[2], &[]),
            Call::Send(&[2], &[]),
            Call::Waiting,
            Call::Sent(1),
            Call::SetRoom(0),
            Call::Send(&[], &[]),
            Call::FailSends(IoFault::Other(5)),
            Call::Send(&[2], &[]),
            Call::Arrive(&[3], &[]),
            Call::Receive(1),
        ],
        told: "sent 1\nsend: broken pipe\nsend: broken pipe\nwaiting: 01, fd 8\nsend: broken pipe\nsend: os error 5\nreceived 1 in 03\n",
    },
];

/// Fails if a run tells something else than its row says.
fn rows_tell(rt: &(impl Eprint + AllocGlobal), rows: &[Row]) -> Result<(), Fail> {
    for row in rows {
        row_tells(
            rt,
            row.name,
            mailbox_log(rt.alloc(), row.calls, false),
            row.told,
        )?;
    }
    Ok(())
}

/// What arrives is received in its order, and then the end or the fault.
#[test]
fn arrivals(rt: HostRuntime) -> Result<(), Fail> {
    rows_tell(&rt, &ARRIVALS)
}

/// What is sent waits for the host in its order, up to the room.
#[test]
fn sends(rt: HostRuntime) -> Result<(), Fail> {
    rows_tell(&rt, &SENDS)
}

/// If an allocation is refused, nothing has changed: the same call again, and all after it, answers as with ample memory.
#[test]
fn drill_of_a_mailbox(rt: HostRuntime) -> Result<(), Fail> {
    let calls = [
        Call::Arrive(&[1, 2, 3], &[Token(8), Token(9)]),
        Call::Receive(2),
        Call::Arrive(&[4, 5, 6, 7, 8, 9, 10, 11, 12, 13], &[Token(7)]),
        Call::Receive(11),
        Call::Send(&[1, 2, 3], &[Token(5), Token(6)]),
        Call::Sent(1),
        Call::Send(&[4, 5, 6, 7, 8, 9, 10, 11, 12, 13], &[Token(4)]),
        Call::Waiting,
    ];
    tells(
        &rt,
        mailbox_log(rt.alloc(), &calls, true),
        "received 2 in 01 02, fd 8, fd 9\nreceived 11 in 03 04 05 06 07 08 09 0a 0b 0c 0d, fd 7\nsent 3\nsent 10\nwaiting: 02 03 04 05 06 07 08 09 0a 0b 0c 0d, fd 4\n",
    )
}

/// Bytes that pass through a mailbox.
const BYTES: [u8; 40] = [7; 40];

/// Tokens that pass with them.
const TOKENS: [Token; 2] = [Token(8), Token(9)];

/// The calls of a mailbox through which these bytes pass twice in each direction, each with its name. The first that puts bytes
/// in needs memory, and so does the first that sends some. What they take is kept.
static COUNTED: [(&str, Call); 12] = [
    ("control: arrive", Call::Arrive(&BYTES, &TOKENS)),
    ("a part received", Call::Receive(30)),
    ("the rest received", Call::Receive(10)),
    ("control: send_msg", Call::Send(&BYTES, &TOKENS)),
    ("a part sent", Call::Sent(30)),
    ("the rest sent", Call::Sent(10)),
    ("arrive again", Call::Arrive(&BYTES, &TOKENS)),
    ("a part received again", Call::Receive(30)),
    ("the rest received again", Call::Receive(10)),
    ("send_msg again", Call::Send(&BYTES, &TOKENS)),
    ("a part sent again", Call::Sent(30)),
    ("the rest sent again", Call::Sent(10)),
];

/// Receives into so many bytes; whether as many come.
fn fills(mailbox: &mut Mailbox, tokens: &mut VecDeque<Token>, room: usize) -> bool {
    let mut buffer = [0; 40];
    match buffer.get_mut(..room) {
        Some(part) => mailbox.rcv_msg(part, tokens) == Ok(room),
        None => false,
    }
}

/// Makes the call; whether it puts in, gives or sends all of it.
fn is_made(mailbox: &mut Mailbox, tokens: &mut VecDeque<Token>, call: Call) -> bool {
    match call {
        Call::Arrive(bytes, fds) => mailbox.arrive(bytes, fds).is_ok(),
        Call::Receive(room) => fills(mailbox, tokens, room),
        Call::Send(bytes, fds) => mailbox.send_msg(bytes, fds) == Ok(bytes.len()),
        _ => {
            tell_mailbox(mailbox, call);
            true
        }
    }
}

/// Names each call on standard error before it is made. Fails if one does not do all of it.
fn count_all(
    rt: &impl Eprint,
    mailbox: &mut Mailbox,
    tokens: &mut VecDeque<Token>,
) -> Result<(), Fail> {
    for (name, call) in &COUNTED {
        let _ = eprintln!(rt; "call: {name}");
        let is_made = is_made(mailbox, tokens, *call);
        let _ = eprintln!(rt; "end");
        holds(rt, name, is_made)?;
    }
    Ok(())
}

/// Makes the calls of a new mailbox, with room for the tokens that come.
fn counted(rt: &(impl Eprint + AllocGlobal)) -> Result<(), Fail> {
    let mut tokens = VecDeque::with_capacity(rt.alloc(), 28)?;
    let mut mailbox = Mailbox::new(rt.alloc());
    let answer = count_all(rt, &mut mailbox, &mut tokens);
    drop(mailbox);
    answer
}

/// A mailbox keeps its memory. `./refusal-drill` counts what is allocated for each call: nothing, but for the two whose names begin
/// with `control`.
#[test]
fn takes_no_memory(rt: HostRuntime) -> Result<(), Fail> {
    counted(&rt)
}

/// A link over a mailbox: what finds no room waits in the link, and goes once the host has sent.
#[test]
fn link_waits_for_room(rt: HostRuntime) -> Result<(), Fail> {
    let mut mailbox = Mailbox::new(rt.alloc());
    mailbox.set_room(1);
    let acts = [
        Act::Write((1, 2), &[Arg::Uint(3), Arg::Fd(4)]),
        Act::Flush,
        Act::Write((5, 6), &[Arg::Fd(7)]),
        Act::Flush,
        Act::Tell(Fact::Waiting),
        Act::TakeSent,
        Act::Flush,
        Act::Tell(Fact::Waiting),
        Act::TakeSent,
    ];
    tells(
        &rt,
        link_log(rt.alloc(), mailbox, None, &acts),
        "write: done\nflush: done\nwrite: done\nflush: would block\nwaiting: 0, 0, 8, 1\n1 sends\n01 00 00 00 02 00 0c 00 03 00 00 00, fd 4\nflush: done\nwaiting: 0, 0, 0, 0\n1 sends\n05 00 00 00 06 00 08 00, fd 7\n0 sends recorded\n",
    )
}
