// Works a standard load on a group of replicas with readings and the bench coin: each fills its queue, and then all
// open, hear all boards and turn until they rest, until all have reached an epoch. Prints how many calls of each
// kind that took, and a digest of the books' files. The arguments are N, W and the epoch.
#![tactic(auto)]

mod counts;
mod digest;
mod load;

use counts::Counts;
use load::Load;
use replica::Set;
use std::process::ExitCode;
use std::{env, io};

const USAGE: &str = "usage: pipebench N W EPOCHS";

// More bytes than a board or the file of the largest set has.
const ROOM: usize = 65536;

// What the arguments say.
#[derive(Clone, Copy)]
struct Options {
    boxes: u8,
    // How many slots a queue has.
    slots: u8,
    epochs: u16,
}

impl Options {
    fn read(mut args: env::Args) -> Option<Options> {
        let _program = args.next();
        let boxes = args.next()?.parse().ok()?;
        let slots = args.next()?.parse().ok()?;
        let epochs = args.next()?.parse().ok()?;
        if args.next().is_some() || epochs > common::EPOCHS {
            return None;
        }
        Some(Options {
            boxes,
            slots,
            epochs,
        })
    }
}

fn main(rt: HostRuntime) -> anyhow::Result<ExitCode> {
    let Some(options) = Options::read(env::args(&rt)?) else {
        eprintln!(rt; "{USAGE}")?;
        return Ok(ExitCode::FAILURE);
    };
    match Set::new(options.boxes, 0, options.slots) {
        Ok(set) => work(&rt, set, options.epochs)?,
        Err(refusal) => println!(rt; "refused;{refusal}")?,
    }
    Ok(ExitCode::SUCCESS)
}

// Works the load, and prints what came of it.
fn work(rt: &HostRuntime, set: Set, epochs: u16) -> io::Result<()> {
    let heap = rt.alloc();
    let mut buffer = vec![in heap; 0u8; ROOM]?;
    let mut load = Load::new(heap, set)?;
    load.run(epochs, &mut buffer);
    let digest = load.digest(&mut buffer);
    println!(rt; "pages;{}", load.pages())?;
    tell(rt, load.counts)?;
    println!(rt; "digest;{:016x}", digest.0)
}

// Prints the counts, a line each.
fn tell(rt: &HostRuntime, counts: Counts) -> io::Result<()> {
    println!(rt; "exchanges;{}", counts.exchanges)?;
    println!(rt; "submit;{}", counts.submits)?;
    println!(rt; "open;{}", counts.opens)?;
    println!(rt; "hear;{}", counts.hears)?;
    println!(rt; "turn;{}", counts.turns)?;
    println!(rt; "show;{}", counts.shows)?;
    println!(rt; "next;{}", counts.nexts)?;
    println!(rt; "print;{}", counts.prints)?;
    println!(rt; "accepted;{}", counts.accepted)?;
    println!(rt; "moves;{}", counts.moves)
}
