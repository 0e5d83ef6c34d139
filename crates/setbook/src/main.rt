// Plays a script, read from standard input, with boxes of any number, slots, kind and coin. The arguments name the
// kind, how many boxes there are, the slots of a queue, and the coin. A sheet's bytes stand before the script.
// All that is printed is made by `script::output`, but for the line of a sheet that is too short.
#![tactic(auto)]

use coin::{Bench, Coin, SHEET, Sheet};
use entry::{Entry, Reading, ShareOrder};
use script::output;
use std::alloc::{AllocError, Global};
use std::env;
use std::io::{self, Read, Write};
use std::process::ExitCode;
use std::str::FromStr;

const USAGE: &str = "usage: setbook reading|order N W bench|sheet < script";

// The kind by its name, as `dayview` has it: a crate of its own for two names would be larger.
#[derive(Clone, Copy)]
enum Kind {
    Reading,
    Order,
}

// The coin by its name.
#[derive(Clone, Copy)]
enum Toss {
    Bench,
    Sheet,
}

#[derive(Drop)]
struct UnknownName;

impl FromStr for Kind {
    type Err = UnknownName;

    fn from_str(name: &str) -> Result<Kind, UnknownName> {
        match name {
            "reading" => Ok(Kind::Reading),
            "order" => Ok(Kind::Order),
            _ => Err(UnknownName),
        }
    }
}

impl FromStr for Toss {
    type Err = UnknownName;

    fn from_str(name: &str) -> Result<Toss, UnknownName> {
        match name {
            "bench" => Ok(Toss::Bench),
            "sheet" => Ok(Toss::Sheet),
            _ => Err(UnknownName),
        }
    }
}

// What the arguments say.
#[derive(Clone, Copy)]
struct Options {
    kind: Kind,
    boxes: u8,
    // How many slots a queue has.
    slots: u8,
    toss: Toss,
}

impl Options {
    fn read(mut args: env::Args) -> Option<Options> {
        let _program = args.next();
        let kind = args.next()?.parse().ok()?;
        let boxes = args.next()?.parse().ok()?;
        let slots = args.next()?.parse().ok()?;
        let toss = args.next()?.parse().ok()?;
        if args.next().is_some() {
            return None;
        }
        Some(Options {
            kind,
            boxes,
            slots,
            toss,
        })
    }
}

fn main(rt: HostRuntime) -> anyhow::Result<ExitCode> {
    let Some(options) = Options::read(env::args(&rt)?) else {
        eprintln!(rt; "{USAGE}")?;
        return Ok(ExitCode::FAILURE);
    };
    let mut input = Vec::new(rt.alloc());
    rt.stdin().read_to_end(&mut input)?;
    match options.toss {
        Toss::Bench => play(&rt, options, Bench, &input)?,
        Toss::Sheet => {
            let (dealt, script) = input.split_at(input.len().min(SHEET));
            match Sheet::deal(dealt) {
                Ok(sheet) => play(&rt, options, sheet, script)?,
                Err(refusal) => println!(rt; "refused;{refusal}")?,
            }
        }
    }
    Ok(ExitCode::SUCCESS)
}

// Plays the script with the kind that is asked for, and prints what it writes.
fn play<C: Coin + Drop>(
    rt: &HostRuntime,
    options: Options,
    coin: C,
    script: &[u8],
) -> io::Result<()> {
    let heap = rt.alloc();
    let text = match options.kind {
        Kind::Reading => written::<Reading, C>(heap, options, coin, script)?,
        Kind::Order => written::<ShareOrder, C>(heap, options, coin, script)?,
    };
    rt.stdout().write_all(&text)
}

fn written<K: Entry, C: Coin + Drop>(
    heap: Global,
    options: Options,
    coin: C,
    script: &[u8],
) -> Result<Vec<u8>, AllocError> {
    output::<K, C>(heap, options.boxes, options.slots, coin, script)
}
