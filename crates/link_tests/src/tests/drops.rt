//! What is dropped, once and then: by a map of objects, and by a link. Each value counts its drops.

use std::alloc::Global;
use std::cell::Cell;
use std::process::Abort;
use std::test::Fail;
use test_kit::log::row_tells;
use wl_link::{BufferedSocket, Object, ObjectMap};
use wl_wire::WL_CALLBACK_INTERFACE;

/// A value that adds its weight to a sum when it is dropped. Weights are powers of ten: so the sum has a digit for each value,
/// which says how often that was dropped. It serves as an object, and as the transport of a link that sends nothing.
struct Counted<'a> {
    drops: &'a Cell<u64>,
    weight: u64,
}

impl<'a> Counted<'a> {
    /// The value of this weight.
    fn new(drops: &'a Cell<u64>, weight: u64) -> Self {
        Counted { drops, weight }
    }
}

impl Drop for Counted<'_> {
    fn drop(self) {
        self.drops.set(self.drops.get().wrapping_add(self.weight));
        let Counted {
            drops: _,
            weight: _,
        } = self;
    }
}

/// A call of a map. An object is named by its weight.
#[derive(Clone, Copy)]
enum Act {
    /// Puts an object at this number.
    InsertAt(u32, u64),
    /// Puts a new object of the client.
    ClientNew(u64),
    /// Puts a new object of the server.
    ServerNew(u64),
    /// Takes the object of this number out.
    Remove(u32),
}

/// The object of this weight.
fn object<'a>(drops: &'a Cell<u64>, weight: u64) -> Object<Counted<'a>> {
    Object {
        interface: WL_CALLBACK_INTERFACE,
        version: 1,
        value: Counted::new(drops, weight),
    }
}

/// Tells what was dropped so far: before the answer of the call is let go of, and after that.
fn tell<A: Drop>(drops: &Cell<u64>, log: &mut String, answer: A) -> Result<(), Fail> {
    let by_call = drops.get();
    drop(answer);
    let in_all = drops.get();
    Ok(writeln!(log, "{by_call:06}, {in_all:06}")?)
}

/// Makes the call, and tells what it dropped.
fn perform<'a>(
    drops: &'a Cell<u64>,
    map: &mut ObjectMap<Counted<'a>>,
    log: &mut String,
    act: Act,
) -> Result<(), Fail> {
    match act {
        Act::InsertAt(number, weight) => {
            tell(drops, log, map.insert_at(number, object(drops, weight)))
        }
        Act::ClientNew(weight) => tell(drops, log, map.client_insert_new(object(drops, weight))),
        Act::ServerNew(weight) => tell(drops, log, map.server_insert_new(object(drops, weight))),
        Act::Remove(number) => tell(drops, log, map.remove(number)),
    }
}

/// Makes the calls.
fn perform_all<'a>(
    drops: &'a Cell<u64>,
    map: &mut ObjectMap<Counted<'a>>,
    log: &mut String,
    acts: &[Act],
) -> Result<(), Fail> {
    for act in acts {
        perform(drops, map, log, *act)?;
    }
    Ok(())
}

/// Makes the calls of a new map, which ends after them.
fn run<'a>(
    alloc: Global,
    drops: &'a Cell<u64>,
    log: &mut String,
    acts: &[Act],
) -> Result<(), Fail> {
    let mut map: ObjectMap<Counted<'a>> = ObjectMap::new(alloc);
    let answer = perform_all(drops, &mut map, log, acts);
    drop(map);
    answer
}

/// What was dropped by each call of a run, and in the end.
fn log_of(alloc: Global, acts: &[Act]) -> Result<String, Fail> {
    let drops = Cell::new(0);
    let mut log = String::new(alloc);
    run(alloc, &drops, &mut log, acts)?;
    writeln!(log, "{:06}", drops.get())?;
    Ok(log)
}

/// A row of a table of runs: what a failing one is named, its calls, and what they drop.
struct Row {
    name: &'static str,
    acts: &'static [Act],
    told: &'static str,
}

/// The runs. After each call there is what it has dropped, and what was dropped with its answer; at the end, what has been
/// dropped once the map has ended.
static ROWS: [Row; 2] = [
    // An object that is refused is dropped: its number holds another, in either range, or is 0, or is above the first unused one.
    Row {
        name: "insertions are refused",
        acts: &[
            Act::ClientNew(1),
            Act::ServerNew(10),
            Act::InsertAt(1, 100),
            Act::InsertAt(0xFF00_0000, 1000),
            Act::InsertAt(0, 10_000),
            Act::InsertAt(3, 100_000),
        ],
        told: "000000, 000000\n000000, 000000\n000100, 000100\n001100, 001100\n011100, 011100\n111100, 111100\n111111\n",
    },
    // An object that is taken out is the caller's. Another one takes its place. The map drops those that are left.
    Row {
        name: "objects are taken out",
        acts: &[
            Act::InsertAt(1, 1),
            Act::InsertAt(2, 10),
            Act::ServerNew(100),
            Act::Remove(1),
            Act::Remove(1),
            Act::InsertAt(1, 1000),
            Act::Remove(0xFF00_0000),
        ],
        told: "000000, 000000\n000000, 000000\n000000, 000000\n000000, 000001\n000001, 000001\n000001, 000001\n000001, 000101\n001111\n",
    },
];

/// Each object is dropped where it has to be.
#[test]
fn rows(rt: HostRuntime) -> Result<(), Fail> {
    for row in &ROWS {
        row_tells(&rt, row.name, log_of(rt.alloc(), row.acts), row.told)?;
    }
    Ok(())
}

/// Fails if it was not this that was dropped so far.
fn has_dropped(rt: &impl Abort, drops: &Cell<u64>, sum: u64) {
    assert_eq!(rt; drops.get(), sum);
}

/// Makes a link over a transport, and gives it up. What is refused for want of memory has dropped its transport by then.
fn make_link(rt: &(impl Abort + AllocGlobal), drops: &Cell<u64>) {
    let link = BufferedSocket::new(rt.alloc(), Counted::new(drops, 1), None);
    has_dropped(rt, drops, if link.is_ok() { 0 } else { 1 });
    drop(link);
}

/// Makes a link over another transport, and takes the transport out of it, which is then the caller's.
fn take_transport(rt: &(impl Abort + AllocGlobal), drops: &Cell<u64>) {
    if let Ok(link) = BufferedSocket::new(rt.alloc(), Counted::new(drops, 10), None) {
        let transport = link.into_transport();
        has_dropped(rt, drops, 1);
        drop(transport);
    }
}

/// Puts an object into a map, and gives that up. What is refused for want of memory has been dropped by then.
fn fill_map(rt: &(impl Abort + AllocGlobal), drops: &Cell<u64>) {
    let mut map = ObjectMap::new(rt.alloc());
    let inserted = map.insert_at(1, object(drops, 100));
    has_dropped(rt, drops, if inserted.is_ok() { 11 } else { 111 });
    drop(map);
}

/// Whatever is refused memory, each value has been dropped once in the end.
#[test]
fn drill_of_dropped_values(rt: HostRuntime) {
    let drops = Cell::new(0);
    make_link(&rt, &drops);
    has_dropped(&rt, &drops, 1);
    take_transport(&rt, &drops);
    has_dropped(&rt, &drops, 11);
    fill_map(&rt, &drops);
    has_dropped(&rt, &drops, 111);
}
