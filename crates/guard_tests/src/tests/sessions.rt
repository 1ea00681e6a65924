//! Sessions, message by message.

use crate::kit::{Allowed, NOTHING, Named, Raw, Row, Sent, policy_of, put_in, row_holds, spelled};
use std::alloc::Global;
use std::test::Fail;
use test_kit::log::holds;
use wl_guard::{ArriveError, End, Guard, Policy, Rule, Side};
use wl_wire::Token;

/// The client asks for the registry, as object 2.
const REGISTRY: Sent = Sent::Registry;

/// The compositor announces `quad` in version 3 as the global 7; the policy allows 2.
const ANNOUNCED: Sent = Sent::Announced(7, Named::Quad, 3);

/// The same as the client is told of it.
const TOLD: Sent = Sent::Announced(7, Named::Quad, 2);

/// The compositor announces `pair`, which the policy does not allow, as the global 8.
const HIDDEN: Sent = Sent::Announced(8, Named::Pair, 1);

/// The client binds the global 7 as object 3, in version 2.
const BOUND: Sent = Sent::Bound(7, Named::Quad, 2);

/// The client makes the object 4 by object 3.
const MADE: Sent = Sent::Made(4);

/// The compositor makes its first object by object 3.
const MADE_BY_SERVER: Sent = Sent::Made(0xFF00_0000);

/// The client ends that object.
const ENDED: Sent = Sent::Ended(0xFF00_0000);

/// The client pokes that object.
const POKED: Sent = Sent::Poked(0xFF00_0000, 5);

/// The client binds the global 7 as object 3, in version 1.
const BOUND_AS_FIRST: Sent = Sent::Bound(7, Named::Quad, 1);

/// The client binds the global 8 as object 3.
const PAIR_BOUND: Sent = Sent::Bound(8, Named::Pair, 1);

/// `pair.join`, and `pair.joined`, of object 3, with the descriptor 9.
const JOINED: Sent = Sent::Joined;

/// `wl_display.sync` with a word behind its argument.
const LONG_SYNC: Raw = Raw {
    side: Side::Client,
    bytes: &[1, 0, 0, 0, 0, 0, 16, 0, 2, 0, 0, 0, 0, 0, 0, 0],
    tokens: &[],
};

/// `wl_display.sync` whose header says four bytes.
const SHORT_HEADER: Raw = Raw {
    side: Side::Client,
    bytes: &[1, 0, 0, 0, 0, 0, 4, 0],
    tokens: &[],
};

/// A request of object 9, which is not there, with two descriptors.
const UNKNOWN_WITH_TOKENS: Raw = Raw {
    side: Side::Client,
    bytes: &[9, 0, 0, 0, 0, 0, 8, 0],
    tokens: &[Token(5), Token(6)],
};

/// One descriptor more than may wait.
const MANY_TOKENS: Raw = Raw {
    side: Side::Client,
    bytes: &[],
    tokens: &[Token(4); 113],
};

/// The bytes of `JOINED` without its descriptor.
const JOIN_WITHOUT_TOKEN: Raw = Raw {
    side: Side::Client,
    bytes: &[
        3, 0, 0, 0, 0, 0, 32, 0, 3, 0, 0, 0, 3, 0, 0, 0, 2, 0, 0, 0, 97, 0, 0, 0, 1, 0, 0, 0, 98,
        0, 0, 0,
    ],
    tokens: &[],
};

/// Sessions about globals.
static GLOBALS: [Row; 9] = [
    Row {
        name: "what is allowed goes on, and versions are lowered",
        sends: &[
            (Side::Client, REGISTRY),
            (Side::Server, ANNOUNCED),
            (Side::Client, BOUND),
            (Side::Client, MADE),
        ],
        last: NOTHING,
        to_server: &[REGISTRY, BOUND, MADE],
        to_client: &[TOLD],
        released: &[],
        rule: None,
    },
    Row {
        name: "what is hidden is not told, nor taken back",
        sends: &[
            (Side::Client, REGISTRY),
            (Side::Server, ANNOUNCED),
            (Side::Server, HIDDEN),
            (Side::Server, Sent::TakenBack(8)),
            (Side::Server, Sent::TakenBack(7)),
        ],
        last: NOTHING,
        to_server: &[REGISTRY],
        to_client: &[TOLD, Sent::TakenBack(7)],
        released: &[],
        rule: None,
    },
    Row {
        name: "a bind may be on its way when its global is taken back",
        sends: &[
            (Side::Client, REGISTRY),
            (Side::Server, ANNOUNCED),
            (Side::Server, Sent::TakenBack(7)),
            (Side::Client, BOUND),
        ],
        last: NOTHING,
        to_server: &[REGISTRY, BOUND],
        to_client: &[TOLD, Sent::TakenBack(7)],
        released: &[],
        rule: None,
    },
    Row {
        name: "a guessed number",
        sends: &[(Side::Client, REGISTRY), (Side::Client, BOUND)],
        last: NOTHING,
        to_server: &[REGISTRY],
        to_client: &[Sent::Error(b"refused by what was announced: wl_registry#2.bind")],
        released: &[],
        rule: Some(Rule::Global),
    },
    Row {
        name: "a hidden number",
        sends: &[
            (Side::Client, REGISTRY),
            (Side::Server, HIDDEN),
            (Side::Client, Sent::Bound(8, Named::Pair, 1)),
        ],
        last: NOTHING,
        to_server: &[REGISTRY],
        to_client: &[Sent::Error(b"refused by what was announced: wl_registry#2.bind")],
        released: &[],
        rule: Some(Rule::Global),
    },
    Row {
        name: "a version that was not told",
        sends: &[
            (Side::Client, REGISTRY),
            (Side::Server, ANNOUNCED),
            (Side::Client, Sent::Bound(7, Named::Quad, 3)),
        ],
        last: NOTHING,
        to_server: &[REGISTRY],
        to_client: &[
            TOLD,
            Sent::Error(b"refused by what was announced: wl_registry#2.bind"),
        ],
        released: &[],
        rule: Some(Rule::Global),
    },
    Row {
        name: "version 0",
        sends: &[
            (Side::Client, REGISTRY),
            (Side::Server, ANNOUNCED),
            (Side::Client, Sent::Bound(7, Named::Quad, 0)),
        ],
        last: NOTHING,
        to_server: &[REGISTRY],
        to_client: &[
            TOLD,
            Sent::Error(b"refused by what was announced: wl_registry#2.bind"),
        ],
        released: &[],
        rule: Some(Rule::Global),
    },
    Row {
        name: "a number that was announced again, hidden",
        sends: &[
            (Side::Client, REGISTRY),
            (Side::Server, ANNOUNCED),
            (Side::Server, Sent::Announced(7, Named::Pair, 1)),
            (Side::Client, BOUND),
        ],
        last: NOTHING,
        to_server: &[REGISTRY],
        to_client: &[
            TOLD,
            Sent::Error(b"refused by what was announced: wl_registry#2.bind"),
        ],
        released: &[],
        rule: Some(Rule::Global),
    },
    Row {
        name: "more globals than the limit",
        sends: &[
            (Side::Client, REGISTRY),
            (Side::Server, HIDDEN),
            (Side::Server, HIDDEN),
            (Side::Server, Sent::Announced(1, Named::Other, 1)),
            (Side::Server, Sent::Announced(2, Named::Other, 1)),
            (Side::Server, Sent::Announced(3, Named::Other, 1)),
        ],
        last: NOTHING,
        to_server: &[REGISTRY],
        to_client: &[],
        released: &[],
        rule: Some(Rule::Globals),
    },
];

/// Sessions about objects and their requests.
static OBJECTS: [Row; 8] = [
    Row {
        name: "a refused request",
        sends: &[
            (Side::Client, REGISTRY),
            (Side::Server, ANNOUNCED),
            (Side::Client, BOUND),
            (Side::Client, Sent::Linked),
            (Side::Client, MADE),
        ],
        last: NOTHING,
        to_server: &[REGISTRY, BOUND],
        to_client: &[TOLD, Sent::Error(b"refused by policy: quad#3.link")],
        released: &[],
        rule: Some(Rule::Policy),
    },
    Row {
        name: "an ignored request, whose descriptor is given back",
        sends: &[
            (Side::Client, REGISTRY),
            (Side::Server, ANNOUNCED),
            (Side::Client, BOUND),
            (Side::Client, Sent::Given),
            (Side::Client, MADE),
        ],
        last: NOTHING,
        to_server: &[REGISTRY, BOUND, MADE],
        to_client: &[TOLD],
        released: &[9],
        rule: None,
    },
    Row {
        name: "a request of an object that the client has ended",
        sends: &[
            (Side::Client, REGISTRY),
            (Side::Server, ANNOUNCED),
            (Side::Client, BOUND),
            (Side::Server, MADE_BY_SERVER),
            (Side::Client, POKED),
            (Side::Client, ENDED),
            (Side::Server, Sent::Poked(0xFF00_0000, 1)),
            (Side::Client, POKED),
        ],
        last: NOTHING,
        to_server: &[REGISTRY, BOUND, POKED, ENDED],
        to_client: &[
            TOLD,
            MADE_BY_SERVER,
            Sent::Poked(0xFF00_0000, 1),
            Sent::Error(b"refused by its destructor: quad#4278190080.poke"),
        ],
        released: &[],
        rule: Some(Rule::Destroyed),
    },
    Row {
        name: "a number of the compositor that is made again",
        sends: &[
            (Side::Client, REGISTRY),
            (Side::Server, ANNOUNCED),
            (Side::Client, BOUND),
            (Side::Server, MADE_BY_SERVER),
            (Side::Client, ENDED),
            (Side::Server, MADE_BY_SERVER),
            (Side::Client, POKED),
        ],
        last: NOTHING,
        to_server: &[REGISTRY, BOUND, ENDED, POKED],
        to_client: &[TOLD, MADE_BY_SERVER, MADE_BY_SERVER],
        released: &[],
        rule: None,
    },
    Row {
        name: "an object that is not there",
        sends: &[(Side::Client, Sent::Poked(9, 1))],
        last: NOTHING,
        to_server: &[],
        to_client: &[Sent::Error(b"refused by the table: [unknown]#9.[unknown]")],
        released: &[],
        rule: Some(Rule::Unknown),
    },
    Row {
        name: "a new object beyond the limit",
        sends: &[(Side::Client, Sent::Sync(2)), (Side::Client, Sent::Sync(6))],
        last: NOTHING,
        to_server: &[Sent::Sync(2)],
        to_client: &[Sent::Error(b"refused by the limit of objects: wl_display#1.sync")],
        released: &[],
        rule: Some(Rule::Objects),
    },
    Row {
        name: "a request that the version lacks",
        sends: &[
            (Side::Client, REGISTRY),
            (Side::Server, ANNOUNCED),
            (Side::Client, BOUND_AS_FIRST),
            (Side::Client, MADE),
        ],
        last: NOTHING,
        to_server: &[REGISTRY, BOUND_AS_FIRST],
        to_client: &[TOLD, Sent::Error(b"refused by its version: quad#3.make")],
        released: &[],
        rule: Some(Rule::Version),
    },
    Row {
        name: "a number that is in use",
        sends: &[(Side::Client, REGISTRY), (Side::Client, REGISTRY)],
        last: NOTHING,
        to_server: &[REGISTRY],
        to_client: &[Sent::Error(b"refused by its new number: wl_display#1.get_registry")],
        released: &[],
        rule: Some(Rule::NewId),
    },
];

/// Sessions about bytes and descriptors.
static ARRIVALS: [Row; 4] = [
    Row {
        name: "bytes behind the arguments",
        sends: &[],
        last: LONG_SYNC,
        to_server: &[],
        to_client: &[Sent::Error(b"refused by its length: wl_display#1.sync")],
        released: &[],
        rule: Some(Rule::Length),
    },
    Row {
        name: "a length below a header's",
        sends: &[],
        last: SHORT_HEADER,
        to_server: &[],
        to_client: &[Sent::Error(b"refused by the format: wl_display#1.sync")],
        released: &[],
        rule: Some(Rule::Malformed),
    },
    Row {
        name: "a breach while descriptors are on their way",
        sends: &[(Side::Client, REGISTRY)],
        last: UNKNOWN_WITH_TOKENS,
        to_server: &[REGISTRY],
        to_client: &[Sent::Error(b"refused by the table: [unknown]#9.[unknown]")],
        released: &[5, 6],
        rule: Some(Rule::Unknown),
    },
    Row {
        name: "descriptors that no message takes",
        sends: &[],
        last: MANY_TOKENS,
        to_server: &[],
        to_client: &[Sent::Error(b"refused by its descriptors: [unknown]#0.[unknown]")],
        released: &[4; 113],
        rule: Some(Rule::Descriptors),
    },
];

/// Sessions under a policy that allows `pair`, too.
static PAIRS: [Row; 2] = [
    Row {
        name: "descriptors go on",
        sends: &[
            (Side::Client, REGISTRY),
            (Side::Server, HIDDEN),
            (Side::Client, PAIR_BOUND),
            (Side::Client, JOINED),
            (Side::Server, JOINED),
        ],
        last: NOTHING,
        to_server: &[REGISTRY, PAIR_BOUND, JOINED],
        to_client: &[HIDDEN, JOINED],
        released: &[],
        rule: None,
    },
    Row {
        name: "a descriptor is awaited",
        sends: &[
            (Side::Client, REGISTRY),
            (Side::Server, HIDDEN),
            (Side::Client, PAIR_BOUND),
        ],
        last: JOIN_WITHOUT_TOKEN,
        to_server: &[REGISTRY, PAIR_BOUND],
        to_client: &[HIDDEN],
        released: &[],
        rule: None,
    },
];

/// Fails if something else comes of a row, in whole messages or in single bytes.
fn rows_hold(rt: &(impl Eprint + AllocGlobal), rows: &[Row], allowed: Allowed) -> Result<(), Fail> {
    for row in rows {
        row_holds(rt, row, allowed, false)?;
        row_holds(rt, row, allowed, true)?;
    }
    Ok(())
}

/// Fails if something else comes of a session about globals.
fn globals_hold(rt: &(impl Eprint + AllocGlobal)) -> Result<(), Fail> {
    rows_hold(rt, &GLOBALS, Allowed::Quad)
}

/// Fails if something else comes of a session about objects.
fn objects_hold(rt: &(impl Eprint + AllocGlobal)) -> Result<(), Fail> {
    rows_hold(rt, &OBJECTS, Allowed::Quad)
}

/// Fails if something else comes of a session about bytes and descriptors.
fn arrivals_hold(rt: &(impl Eprint + AllocGlobal)) -> Result<(), Fail> {
    rows_hold(rt, &ARRIVALS, Allowed::Quad)
}

/// Fails if something else comes of a session in which `pair` is allowed.
fn pairs_hold(rt: &(impl Eprint + AllocGlobal)) -> Result<(), Fail> {
    rows_hold(rt, &PAIRS, Allowed::QuadAndPair)
}

#[test]
fn rows(rt: HostRuntime) -> Result<(), Fail> {
    globals_hold(&rt)?;
    objects_hold(&rt)?;
    arrivals_hold(&rt)?;
    pairs_hold(&rt)
}

/// The client pokes object 3, up to a thousand times, until there is no room. Answers how often there was.
fn pokes_taken(policy: &Policy, guard: &mut Guard, poke: &[u8]) -> usize {
    for taken in 0..1000 {
        if guard.arrive(policy, Side::Client, poke, &[]) == Err(ArriveError::NoRoom) {
            return taken;
        }
    }
    1000
}

/// What is seen of a guard whose client sends more than the compositor is sent.
#[derive(Clone, Copy)]
struct Rest {
    taken: usize,
    waiting: usize,
    from_server: Result<(), ArriveError>,
    more: usize,
    is_open: bool,
}

/// Fills up what waits for the compositor, sends a word of it, and fills it up again.
fn fill_up(policy: &Policy, guard: &mut Guard, poke: &[u8]) -> Rest {
    let taken = pokes_taken(policy, guard, poke);
    let waiting = guard.waiting(Side::Server);
    let from_server = guard.arrive(policy, Side::Server, &[], &[]);
    guard.sent(Side::Server, 4);
    let more = pokes_taken(policy, guard, poke);
    Rest {
        taken,
        waiting,
        from_server,
        more,
        is_open: guard.end().is_none(),
    }
}

/// Binds object 3, and pokes it.
fn bind_and_fill_up(alloc: Global, policy: &Policy, guard: &mut Guard) -> Result<Rest, Fail> {
    let bound = [
        (Side::Client, REGISTRY),
        (Side::Server, ANNOUNCED),
        (Side::Client, BOUND),
    ];
    put_in(alloc, policy, guard, &bound, false)?;
    let poke = spelled(alloc, &[Sent::Poked(3, 1)])?;
    Ok(fill_up(policy, guard, &poke.bytes))
}

/// The same with a new guard.
fn rest_of_new(alloc: Global, policy: &Policy) -> Result<Rest, Fail> {
    let mut guard = Guard::new(alloc)?;
    let rest = bind_and_fill_up(alloc, policy, &mut guard);
    drop(guard);
    rest
}

/// The same under a new policy.
fn rest_under(alloc: Global) -> Result<Rest, Fail> {
    let policy = policy_of(alloc, Allowed::Quad)?;
    let rest = rest_of_new(alloc, &policy);
    drop(policy);
    rest
}

#[test]
fn a_compositor_rests(rt: HostRuntime) -> Result<(), Fail> {
    let rest = rest_under(rt.alloc())?;
    // 12 and 32 bytes wait, and then 12 for each: with the 338th they are more than 4096.
    holds(&rt, "taken", rest.taken == 338 && rest.waiting == 4100)?;
    holds(&rt, "from the compositor", rest.from_server == Ok(()))?;
    holds(&rt, "more", rest.more == 1)?;
    holds(&rt, "end", rest.is_open)
}

/// The header of a `wl_display.sync` whose argument has not come, with the descriptor 21.
const BEGUN: Raw = Raw {
    side: Side::Client,
    bytes: &[1, 0, 0, 0, 0, 0, 12, 0],
    tokens: &[Token(21)],
};

/// What is seen of a guard that hangs up.
#[derive(Clone, Copy)]
struct HungUp {
    open: Option<Token>,
    end: Option<End>,
    arrival: Result<(), ArriveError>,
    released: Option<Token>,
    more: Option<Token>,
}

/// Hangs up twice, once this came.
fn hang_up(policy: &Policy, guard: &mut Guard, came: &Raw) -> HungUp {
    let arrived = guard.arrive(policy, came.side, came.bytes, came.tokens);
    let open = guard.next_released();
    guard.hang_up();
    let end = guard.end();
    guard.hang_up();
    HungUp {
        open,
        end,
        arrival: arrived.and(guard.arrive(policy, came.side, came.bytes, &[])),
        released: guard.next_released(),
        more: guard.next_released(),
    }
}

/// The same with a new guard.
fn hung_up_after(alloc: Global, policy: &Policy, came: &Raw) -> Result<HungUp, Fail> {
    let mut guard = Guard::new(alloc)?;
    let seen = hang_up(policy, &mut guard, came);
    drop(guard);
    Ok(seen)
}

/// The same under a new policy.
fn hung_up_under(alloc: Global, came: &Raw) -> Result<HungUp, Fail> {
    let policy = policy_of(alloc, Allowed::Quad)?;
    let seen = hung_up_after(alloc, &policy, came);
    drop(policy);
    seen
}

#[test]
fn a_program_hangs_up(rt: HostRuntime) -> Result<(), Fail> {
    let seen = hung_up_under(rt.alloc(), &BEGUN)?;
    holds(&rt, "before", seen.open.is_none())?;
    holds(&rt, "end", seen.end == Some(End::HungUp))?;
    holds(
        &rt,
        "nothing more is taken",
        seen.arrival == Err(ArriveError::Ended),
    )?;
    holds(
        &rt,
        "the descriptor",
        seen.released == Some(Token(21)) && seen.more.is_none(),
    )?;
    let refused = hung_up_under(rt.alloc(), &SHORT_HEADER)?;
    holds(
        &rt,
        "a breach stays",
        matches!(refused.end, Some(End::Breach(_))),
    )
}
