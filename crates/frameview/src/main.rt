// Reads a frame from standard input and prints its record. The argument names the kind of entry.
// Every record that is printed is made by `listing::record`.
#![tactic(auto)]

use entry::{Entry, Reading, ShareOrder};
use listing::record;
use std::env;
use std::io::{Read, Write};
use std::process::ExitCode;

const USAGE: &str = "usage: frameview reading|order < frame";

// The two names are matched here: an enum with `FromStr`, as `dayview` has among its four arguments, would be matched again.
fn main(rt: HostRuntime) -> anyhow::Result<ExitCode> {
    let mut args = env::args(&rt)?.skip(1);
    match (args.next().as_deref(), args.next()) {
        (Some("reading"), None) => show::<Reading>(&rt)?,
        (Some("order"), None) => show::<ShareOrder>(&rt)?,
        _ => {
            eprintln!(rt; "{USAGE}")?;
            return Ok(ExitCode::FAILURE);
        }
    }
    Ok(ExitCode::SUCCESS)
}

fn show<K: Entry>(rt: &HostRuntime) -> anyhow::Result<()> {
    let heap = rt.alloc();
    let mut frame = Vec::new(heap);
    rt.stdin().read_to_end(&mut frame)?;
    let text = record::<K>(heap, &frame)?;
    rt.stdout().write_all(&text)?;
    Ok(())
}
