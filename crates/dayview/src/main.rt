// Replays a day of frames, read from standard input, into one replica. Prints a line for each entry and
// statement that it declined and for a record that the day ends inside of, then its board as a table, then the
// file of its book. Where no such replica can be made, it prints only a line with the refusal's number. So it
// would behind what it printed, were the board or the file declined: its buffers have room for both.
// The arguments name the kind of entry, the number of boxes, the replica's own number and the slots of a queue.
// All that is printed is made by `day::replay`, `listing::record` and `printing::print`.
#![tactic(auto)]

use common::Refusal;
use day::replay;
use entry::{Entry, Reading, ShareOrder};
use listing::record;
use printing::print;
use replica::{Replica, Tables};
use showing::show;
use std::alloc::{AllocError, Global};
use std::io::{Read, Write};
use std::process::ExitCode;
use std::str::FromStr;
use std::{env, io};

const USAGE: &str = "usage: dayview reading|order N OWN W < day";

// The largest tables that a set needs: 16 boxes with 16 slots each.
const SLOTS: usize = 256;

const ROWS: usize = 4096;

// More bytes than the board and the file of the largest set have.
const ROOM: usize = 65536;

// The kind by its name. It is not `listing`'s, which goes by the trait alone and knows no kind by name.
#[derive(Clone, Copy)]
enum Kind {
    Reading,
    Order,
}

#[derive(Drop)]
struct UnknownKind;

impl FromStr for Kind {
    type Err = UnknownKind;

    fn from_str(name: &str) -> Result<Kind, UnknownKind> {
        match name {
            "reading" => Ok(Kind::Reading),
            "order" => Ok(Kind::Order),
            _ => Err(UnknownKind),
        }
    }
}

// What the arguments say.
#[derive(Clone, Copy)]
struct Options {
    kind: Kind,
    boxes: u8,
    // The replica's own number.
    own: u8,
    // How many slots a queue has.
    slots: u8,
}

impl Options {
    fn read(mut args: env::Args) -> Option<Options> {
        let _program = args.next();
        let kind = args.next()?.parse().ok()?;
        let boxes = args.next()?.parse().ok()?;
        let own = args.next()?.parse().ok()?;
        let slots = args.next()?.parse().ok()?;
        if args.next().is_some() {
            return None;
        }
        Some(Options {
            kind,
            boxes,
            own,
            slots,
        })
    }
}

// Why a view ends early.
enum Stop {
    Refused(Refusal),
    Failed(anyhow::Error),
}

impl From<Refusal> for Stop {
    fn from(refusal: Refusal) -> Stop {
        Stop::Refused(refusal)
    }
}

impl From<io::Error> for Stop {
    fn from(error: io::Error) -> Stop {
        Stop::Failed(error.into())
    }
}

// What is printed of it is its own text, and not that of an error of input or output.
impl From<AllocError> for Stop {
    fn from(error: AllocError) -> Stop {
        Stop::Failed(error.into())
    }
}

fn main(rt: HostRuntime) -> anyhow::Result<ExitCode> {
    let Some(options) = Options::read(env::args(&rt)?) else {
        eprintln!(rt; "{USAGE}")?;
        return Ok(ExitCode::FAILURE);
    };
    let viewed = match options.kind {
        Kind::Reading => view::<Reading>(&rt, options),
        Kind::Order => view::<ShareOrder>(&rt, options),
    };
    match viewed {
        Ok(()) => {}
        Err(Stop::Refused(refusal)) => println!(rt; "refused;{refusal}")?,
        Err(Stop::Failed(error)) => return Err(error),
    }
    Ok(ExitCode::SUCCESS)
}

fn view<K: Entry>(rt: &HostRuntime, options: Options) -> Result<(), Stop> {
    let heap = rt.alloc();
    let mut sends = vec![in heap; None; SLOTS]?;
    let mut echoes = vec![in heap; None; ROWS]?;
    let mut readies = vec![in heap; None; ROWS]?;
    let mut haves = vec![in heap; None; ROWS]?;
    let mut pages = vec![in heap; None; SLOTS]?;
    let mut tables: Tables<'_, K> = Tables::lend(
        &mut sends,
        &mut echoes,
        &mut readies,
        &mut haves,
        &mut pages,
    );
    let mut replica = Replica::make(options.boxes, options.own, options.slots, &mut tables)?;
    tell(rt, &mut replica, &mut tables)
}

fn tell<K: Entry>(
    rt: &HostRuntime,
    replica: &mut Replica,
    tables: &mut Tables<'_, K>,
) -> Result<(), Stop> {
    let heap = rt.alloc();
    let mut out = rt.stdout();
    let mut day = Vec::new(heap);
    rt.stdin().read_to_end(&mut day)?;
    let lines = replay(replica, tables, heap, &day)?;
    out.write_all(&lines)?;
    let frame = filled(heap, |buffer| {
        show(replica, tables, 0, buffer).map(|shown| shown.bytes)
    })?;
    let board = record::<K>(heap, &frame)?;
    out.write_all(&board)?;
    let file = filled(heap, |buffer| print(replica, tables, buffer))?;
    out.write_all(&file)?;
    Ok(())
}

// The bytes that a call writes into a buffer; it answers how many they are. The buffer is made here, since `show`
// and `print` write into a lent slice.
fn filled<F: FnOnce(&mut [u8]) -> Result<usize, Refusal>>(
    heap: Global,
    write: F,
) -> Result<Vec<u8>, Stop>
    requires { F.IsAlwaysCallable write }
{
    let mut bytes = vec![in heap; 0u8; ROOM]?;
    let count = write(&mut bytes)?;
    bytes.truncate(count);
    Ok(bytes)
}
