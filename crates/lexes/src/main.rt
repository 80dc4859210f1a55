// Counts the tokens of hostile texts: no byte, every byte, long tokens, comments that do not end. With an argument it counts those of
// that file.
#![tactic(auto)]

use std::alloc::{AllocError, Global};
use std::{env, fs};

mod tally;

use tally::tally_of;

const MANY: usize = 1_000_000;

fn report(rt: &HostRuntime, label: &str, text: &[u8]) -> anyhow::Result<()> {
    let tally = tally_of(text);
    println!(rt; "{label}: {tally}")?;
    Ok(())
}

// The pattern again and again.
fn repeated(heap: Global, pattern: &[u8], times: usize) -> Result<Vec<u8>, AllocError> {
    let mut text = Vec::new(heap);
    // The library has no `repeat` for slices.
    for _ in 0..times {
        text.extend_from_slice(pattern)?;
    }
    Ok(text)
}

fn report_many(rt: &HostRuntime, label: &str, pattern: &[u8]) -> anyhow::Result<()> {
    let text = repeated(rt.alloc(), pattern, MANY)?;
    report(rt, label, text.as_slice())
}

// Each byte alone, and all bytes in a row.
fn report_bytes(rt: &HostRuntime) -> anyhow::Result<()> {
    let all: Vec<u8> = (0..=u8::MAX).collect(rt.alloc())?;
    report(rt, "all bytes", all.as_slice())?;
    let mut apart = Vec::new(rt.alloc());
    for b in 0..=u8::MAX {
        apart.extend_from_slice(&[b, b'\n'])?;
    }
    report(rt, "each byte on a line", apart.as_slice())
}

fn report_short(rt: &HostRuntime) -> anyhow::Result<()> {
    report(rt, "no byte", b"")?;
    report(rt, "one byte", b"x")?;
    report(rt, "three equals", b"===")?;
    report(rt, "a comment to the end", b"x # y z")?;
    report(
        rt,
        "numbers at the limit",
        b"18446744073709551615 18446744073709551616 12ab 007",
    )?;
    report(rt, "a function", b"fn main(): int { give Pair(x, *r) }")
}

fn report_long(rt: &HostRuntime) -> anyhow::Result<()> {
    report_many(rt, "a long name", b"a")?;
    report_many(rt, "a long constructor", b"A")?;
    report_many(rt, "a long number", b"0")?;
    report_many(rt, "many equals", b"=")?;
    report_many(rt, "many parentheses", b"(")?;
    report_many(rt, "many blanks", b" ")?;
    report_many(rt, "a long comment", b"#")?;
    report_many(rt, "many comments", b"#\n")?;
    report_many(rt, "many words", b"let x ")
}

fn main(rt: HostRuntime) -> anyhow::Result<()> {
    let mut args = env::args(&rt)?;
    let _ = args.next();
    if let Some(path) = args.next() {
        let text = fs::read(&rt, path)?;
        return report(&rt, "file", text.as_slice());
    }
    report_short(&rt)?;
    report_bytes(&rt)?;
    report_long(&rt)
}
