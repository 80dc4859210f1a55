// Runs a text of the language on trees: `model FILE [--heap WORDS] [--stack WORDS] [--turns N] [--out N] [--depth N]`.
// Numbers to read come from standard input, and each number shown goes onto a line of standard output.
#![tactic(auto)]

use anyhow::{Context, anyhow};
use interpreter::input::numbers;
use interpreter::run::{Limits, Outcome, run_text};
use std::env::Args;
use std::io::Write;
use std::iter::Skip;
use std::process::ExitCode;
use std::{env, fs, io};

const USAGE: &str =
    "usage: model FILE [--heap WORDS] [--stack WORDS] [--turns N] [--out N] [--depth N]";

// What the command line asks for.
#[derive(Drop)]
struct Request {
    file: Option<String>,
    limits: Limits,
}

// Sets the limit that the flag names.
fn set(limits: &mut Limits, flag: &str, value: &str) -> anyhow::Result<()> {
    let number = value.parse::<u64>()?;
    let limit = match flag {
        "--heap" => &mut limits.heap,
        "--stack" => &mut limits.stack,
        "--turns" => &mut limits.turns,
        "--out" => &mut limits.out,
        "--depth" => &mut limits.depth,
        _ => return Err(anyhow!("{USAGE}")),
    };
    *limit = number;
    Ok(())
}

fn requested(mut args: Skip<Args>) -> anyhow::Result<Request> {
    let mut found = Request {
        file: None,
        limits: Limits::large(),
    };
    while let Some(arg) = args.next() {
        if arg.as_str().starts_with("--") {
            let value = args.next().context(USAGE)?;
            set(&mut found.limits, arg.as_str(), value.as_str())?;
        } else if found.file.is_some() {
            return Err(anyhow!("{USAGE}"));
        } else {
            found.file = Some(arg);
        }
    }
    Ok(found)
}

fn show(rt: &HostRuntime, outcome: &Outcome) -> anyhow::Result<()> {
    let mut out = rt.stdout().lock();
    for k in &outcome.shown {
        writeln!(out, "{k}")?;
    }
    Ok(())
}

fn run(rt: &HostRuntime) -> anyhow::Result<Outcome> {
    let heap = rt.alloc();
    let Request { file, limits } = requested(env::args(rt)?.skip(1))?;
    let file = file.context(USAGE)?;
    let text = fs::read(rt, file.as_str())?;
    let input = io::read_to_string(heap, rt.stdin())?;
    let inputs = numbers(heap, input.as_str())
        .ok()
        .context("standard input: not a number")?;
    let outcome = run_text(heap, text.as_slice(), limits, inputs);
    show(rt, &outcome)?;
    Ok(outcome)
}

fn main(rt: HostRuntime) -> anyhow::Result<ExitCode> {
    let outcome = run(&rt)?;
    let used = outcome.used;
    eprintln!(rt; "{outcome}\nused: {used}")?;
    match outcome.end {
        Ok(_) => Ok(ExitCode::SUCCESS),
        Err(_) => Ok(ExitCode::FAILURE),
    }
}
