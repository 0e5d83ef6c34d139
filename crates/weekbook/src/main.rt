// Plays a script, read from standard input, with four boxes of two slots each, readings and the bench coin.
// All that is printed is made by `script::output`.
#![tactic(auto)]

use coin::Bench;
use entry::Reading;
use script::output;
use std::env;
use std::io::{Read, Write};
use std::process::ExitCode;

const USAGE: &str = "usage: weekbook < script";

const BOXES: u8 = 4;

const SLOTS: u8 = 2;

fn main(rt: HostRuntime) -> anyhow::Result<ExitCode> {
    if env::args(&rt)?.nth(1).is_some() {
        eprintln!(rt; "{USAGE}")?;
        return Ok(ExitCode::FAILURE);
    }
    let heap = rt.alloc();
    let mut script = Vec::new(heap);
    rt.stdin().read_to_end(&mut script)?;
    let text = output::<Reading, Bench>(heap, BOXES, SLOTS, Bench, &script)?;
    rt.stdout().write_all(&text)?;
    Ok(ExitCode::SUCCESS)
}
