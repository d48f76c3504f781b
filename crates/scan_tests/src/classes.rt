//! The boards of two classes on one thread: to which board each query is attached, and which board is called first.
ghost use Rattle.std.specs.Prelude.{◌≡◌, ◌<◌, ◌≤◌, All, IfOk};

use scan_board::{Attach, Board, ChunkSet, Collect, Task, Work};
use scan_classes::{Class, ClassBoards, ClassTake, Classes, Pair};
use sky_io::Memory;
use std::alloc::Global;
use std::process::Abort;
use std::sync::Wait;

/// A piece of a query of which nothing is said.
#[derive(Drop)]
struct Blank;

impl Work for Blank {
    ghost use Rattle.std.specs.Prelude.{◌<◌};

    type Root = u8;

    ghost stands = { λ root q chunks piece. Unit {0} };

    ghost asks = { λ root q chunk. chunk < 34 };

    fn absorb(&mut self, _other: Blank) -> Result<(), Memory> {
        Ok(())
    }
}

fn shares<X: Sync>(_shared: &X) {}

fn sends<X: Send>(_sent: &X) {}

// The boards of two classes are shared by threads, with any work that crosses threads, and their pairs cross too.
fn crosses<P: Work<Root: Send> + Send>(boards: &ClassBoards<P>, pair: &Pair<P>) {
    shares(boards);
    sends(pair);
}

// The chunks of the ring from one to before another.
fn chunks_of(alloc: Global, first: u32, end: u32) -> Result<ChunkSet, Memory>
    ensures { IfOk result (λ set. All (λ chunk. chunk < 34) set) }
{
    let mut set = ChunkSet::new(alloc);
    for chunk in first..end.min(34) {
        set.push(chunk)?;
    }
    Ok(set)
}

// Attaches a query. Returns its class, if it is attached.
fn attach<R: Wait>(
    alloc: Global,
    rt: &R,
    classes: &Classes<Blank>,
    pair: Pair<Blank>,
    q: u32,
    first: u32,
    end: u32,
) -> (Option<Class>, Pair<Blank>)
    requires short { (pair.short.turn ≡ classes.now.short) × (pair.short.root.ring ≡ 34) }
    requires long { (pair.long.turn ≡ classes.now.long) × (pair.long.root.ring ≡ 34) }
    requires query { (1 ≤ q) × (q ≤ 255) }
    ensures short { (result.1.short.turn ≡ classes.now.short) × (result.1.short.root.ring ≡ 34) }
    ensures long { (result.1.long.turn ≡ classes.now.long) × (result.1.long.root.ring ≡ 34) }
{
    match chunks_of(alloc, first, end) {
        Err(Memory) => (None, pair),
        Ok(chunks) => {
            let (class, answer, pair) = classes.attach(rt, pair, q, chunks, Blank);
            (matches!(answer, Attach::Attached).then_some(class), pair)
        }
    }
}

// A task: its ticket, its chunk, its first query, and how many queries it has.
fn shown(task: &Task) -> (u32, u32, Option<u32>, usize) {
    let queries = task.queries();
    (
        task.ticket(),
        task.chunk(),
        queries.first().copied(),
        queries.len(),
    )
}

// Takes. Returns the class of the task and the task, if there is one.
fn take<R: Wait>(
    rt: &R,
    classes: &Classes<Blank>,
    pair: Pair<Blank>,
) -> (Option<(Class, (u32, u32, Option<u32>, usize))>, Pair<Blank>)
    requires short { (pair.short.turn ≡ classes.now.short) × (pair.short.root.ring ≡ 34) }
    requires long { (pair.long.turn ≡ classes.now.long) × (pair.long.root.ring ≡ 34) }
    ensures short { (result.1.short.turn ≡ classes.now.short) × (result.1.short.root.ring ≡ 34) }
    ensures long { (result.1.long.turn ≡ classes.now.long) × (result.1.long.root.ring ≡ 34) }
{
    let (answer, pair) = classes.take(rt, pair);
    match answer {
        ClassTake::Short(task) => (Some((Class::Short, shown(&task))), pair),
        ClassTake::Long(task) => (Some((Class::Long, shown(&task))), pair),
        _ => (None, pair),
    }
}

// A query of 16 chunks is short. It is served next, as the scan of the short board goes on; the long query still runs.
fn serve_a_further_short_query<R: Abort + Wait>(
    alloc: Global,
    rt: &R,
    classes: &Classes<Blank>,
    pair: Pair<Blank>,
)
    requires short { (pair.short.turn ≡ classes.now.short) × (pair.short.root.ring ≡ 34) }
    requires long { (pair.long.turn ≡ classes.now.long) × (pair.long.root.ring ≡ 34) }
{
    let (class, pair) = attach(alloc, rt, classes, pair, 3, 0, 16);
    assert_eq!(rt; class, Some(Class::Short));
    let (task, pair) = take(rt, classes, pair);
    assert_eq!(rt; task, Some((Class::Short, (1, 4, Some(3), 1))));
    let (end, _pair) = classes.collect(rt, pair, Class::Long, 1);
    assert!(rt; matches!(end, Collect::NotYet));
}

// A query of 17 chunks is long. A short query that is attached later is served before it.
fn serve_both<R: Abort + Wait>(alloc: Global, rt: &R, classes: &Classes<Blank>, pair: Pair<Blank>)
    requires short { (pair.short.turn ≡ classes.now.short) × (pair.short.root.ring ≡ 34) }
    requires long { (pair.long.turn ≡ classes.now.long) × (pair.long.root.ring ≡ 34) }
{
    let (class, pair) = attach(alloc, rt, classes, pair, 1, 0, 17);
    assert_eq!(rt; class, Some(Class::Long));
    let (class, pair) = attach(alloc, rt, classes, pair, 2, 3, 4);
    assert_eq!(rt; class, Some(Class::Short));
    let (task, pair) = take(rt, classes, pair);
    assert_eq!(rt; task, Some((Class::Short, (0, 3, Some(2), 1))));
    let (task, pair) = take(rt, classes, pair);
    assert_eq!(rt; task, Some((Class::Long, (0, 0, Some(1), 1))));
    serve_a_further_short_query(alloc, rt, classes, pair)
}

#[test]
fn a_short_query_is_served_before_a_long_one(rt: HostRuntime) {
    let alloc = rt.alloc();
    let (Ok(short), Ok(long)) = (Board::new(alloc, 34, 0u8), Board::new(alloc, 34, 0u8)) else {
        panic!(rt; "both boards are made")
    };
    let Ok((classes, pair)) = Classes::<Blank>::new(alloc, short, long) else {
        panic!(rt; "both boards are shared")
    };
    crosses(&ClassBoards::new(&classes, Vec::new(alloc)), &pair);
    serve_both(alloc, &rt, &classes, pair)
}
