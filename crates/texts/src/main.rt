// Runs the texts that its arguments name: with as much as each takes, and with one less of each thing that it takes. What a text reads
// stands at its head, behind `# reads:`.
#![tactic(auto)]

use anyhow::Context;
use interpreter::input::numbers;
use interpreter::run::{Limits, Outcome, run_text};
use std::alloc::Global;
use std::{env, fs};

// What a text reads, as its head has it.
fn reads(text: &str) -> &str {
    text.lines()
        .find_map(|line| line.strip_prefix("# reads:"))
        .unwrap_or("")
}

fn run(heap: Global, text: &str, limits: Limits) -> anyhow::Result<Outcome> {
    let inputs = numbers(heap, reads(text)).ok().context("not a number")?;
    Ok(run_text(heap, text.as_bytes(), limits, inputs))
}

// How a run with less comes out; where there was nothing to take away, a dash.
fn show_less(rt: &HostRuntime, text: &str, less: Option<Limits>) -> anyhow::Result<()> {
    match less {
        Some(limits) => {
            let outcome = run(rt.alloc(), text, limits)?;
            print!(rt; ", {outcome}")?;
        }
        None => print!(rt; ", -")?,
    }
    Ok(())
}

// Just as much as a run used.
fn exactly(outcome: &Outcome) -> Limits {
    let used = outcome.used;
    Limits {
        heap: u64::try_from(used.heap).unwrap_or(u64::MAX),
        stack: used.stack,
        turns: used.turns,
        out: outcome.shown.len() as u64,
        depth: Limits::large().depth,
    }
}

// What was shown, how it ended, and what that took.
fn show_whole(rt: &HostRuntime, outcome: &Outcome) -> anyhow::Result<()> {
    for k in &outcome.shown {
        print!(rt; " {k}")?;
    }
    let used = outcome.used;
    print!(rt; "; {outcome}; {used}; just so: ")?;
    Ok(())
}

// All that a run used, with one less of one thing at a time; nothing where there was none of it.
fn one_less(all: Limits) -> [Option<Limits>; 4] {
    [
        all.heap.checked_sub(1).map(|heap| Limits { heap, ..all }),
        all.stack
            .checked_sub(1)
            .map(|stack| Limits { stack, ..all }),
        all.turns
            .checked_sub(1)
            .map(|turns| Limits { turns, ..all }),
        all.out.checked_sub(1).map(|out| Limits { out, ..all }),
    ]
}

fn show(rt: &HostRuntime, text: &str) -> anyhow::Result<()> {
    let first = run(rt.alloc(), text, Limits::large())?;
    show_whole(rt, &first)?;
    let all = exactly(&first);
    let again = run(rt.alloc(), text, all)?;
    print!(rt; "{again}; one less")?;
    for less in one_less(all) {
        show_less(rt, text, less)?;
    }
    println!(rt; "")?;
    Ok(())
}

fn run_all(rt: &HostRuntime) -> anyhow::Result<()> {
    for name in env::args(rt)?.skip(1) {
        let text = fs::read_to_string(rt, name.as_str())?;
        print!(rt; "{name}:")?;
        show(rt, text.as_str())?;
    }
    Ok(())
}

fn main(rt: HostRuntime) -> anyhow::Result<()> {
    run_all(&rt)
}
