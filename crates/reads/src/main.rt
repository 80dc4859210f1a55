// Reads hostile texts: none may crash, whatever they hold and however deep they nest. With an argument it reads that file, and with
// `list` before it the code is listed.
#![tactic(auto)]

use anyhow::Context;
use code::Listing;
use reader::{ReadError, least_words, read};
use std::alloc::Global;
use std::time::Instant;
use std::{env, fs};

const MANY: usize = 1_000_000;

const DEEP: usize = 100_000;

// The largest of the texts.
const LONGEST: usize = 1_300_000;

// What reading answers, on a line.
fn report(rt: &HostRuntime, words: &mut [u64], label: &str, text: &[u8]) -> anyhow::Result<()> {
    match read(text, words) {
        Ok(code) => {
            let count = code.count;
            println!(rt; "{label}: {count} instructions")?;
        }
        Err(ReadError::NotText(e)) => {
            let place = e.place;
            println!(rt; "{label}: no text at byte {place}: {e}")?;
        }
        Err(ReadError::Little) => println!(rt; "{label}: too few words")?,
    }
    Ok(())
}

fn report_short(rt: &HostRuntime, words: &mut [u64]) -> anyhow::Result<()> {
    report(rt, words, "no byte", b"")?;
    report(rt, words, "one byte", b"x")?;
    report(
        rt,
        words,
        "a comment to the end",
        b"data d = C; # no line feed",
    )?;
    report(rt, words, "two equals", b"fn f(): int { give 1 == 2 }")?;
    report(rt, words, "three equals", b"fn f(): int { give 1 === 2 }")?;
    report(
        rt,
        words,
        "2^64 - 1",
        b"fn f(): int { give 18446744073709551615 }",
    )?;
    report(
        rt,
        words,
        "2^64",
        b"fn f(): int { give 18446744073709551616 }",
    )?;
    report(
        rt,
        words,
        "letters in a number",
        b"fn f(): int { give 12ab }",
    )?;
    report(
        rt,
        words,
        "a keyword as a name",
        b"fn give(): int { give 1 }",
    )?;
    report(rt, words, "nothing given", b"fn f(): int { let x = 1; }")?;
    let few = &mut [0; 8];
    report(rt, few, "eight words", b"")
}

// All bytes in a row.
fn report_bytes(rt: &HostRuntime, words: &mut [u64]) -> anyhow::Result<()> {
    let all: Vec<u8> = (0..=u8::MAX).collect(rt.alloc())?;
    report(rt, words, "all bytes", all.as_slice())
}

fn report_many(rt: &HostRuntime, words: &mut [u64]) -> anyhow::Result<()> {
    let heap = rt.alloc();
    let open = "(".repeat(heap, MANY)?;
    let parens = format!(in heap; "fn f(): int {{ give {open}")?;
    report(rt, words, "many parentheses", parens.as_bytes())?;
    let long = "a".repeat(heap, MANY)?;
    let name = format!(in heap; "fn f(): int {{ give {long} }}")?;
    report(rt, words, "a name of a megabyte", name.as_bytes())
}

fn report_deep(rt: &HostRuntime, words: &mut [u64]) -> anyhow::Result<()> {
    let heap = rt.alloc();
    let begin = "if 1{".repeat(heap, DEEP)?;
    let end = "}else{}".repeat(heap, DEEP)?;
    let ifs = format!(in heap; "fn f(): int {{{begin}{end}give 1}}")?;
    report(rt, words, "nested ifs", ifs.as_bytes())?;
    let open = "(1+".repeat(heap, DEEP)?;
    let close = ")".repeat(heap, DEEP)?;
    let sums = format!(in heap; "fn f(): int {{ give {open}1{close}}}")?;
    report(rt, words, "nested sums", sums.as_bytes())
}

fn words_for(heap: Global, bytes: usize) -> anyhow::Result<Vec<u64>> {
    let least = least_words(bytes).context("a text that no memory is enough for")?;
    Ok(vec![in heap; 0; least]?)
}

// The code of a text, a line for each instruction.
fn list(rt: &HostRuntime, text: &[u8]) -> anyhow::Result<()> {
    let mut words = words_for(rt.alloc(), text.len())?;
    let Ok(code) = read(text, words.as_mut_slice()) else {
        return report(rt, words.as_mut_slice(), "file", text);
    };
    let listing = Listing {
        text,
        words: &words.as_slice()[..3 * code.count],
    };
    print!(rt; "{listing}")?;
    Ok(())
}

fn time(rt: &HostRuntime, text: &[u8]) -> anyhow::Result<()> {
    let mut words = words_for(rt.alloc(), text.len())?;
    let start = Instant::now(rt)?;
    report(rt, words.as_mut_slice(), "file", text)?;
    let taken = start.elapsed(rt)?;
    println!(rt; "{taken:?}")?;
    Ok(())
}

fn report_all(rt: &HostRuntime) -> anyhow::Result<()> {
    let mut words = words_for(rt.alloc(), LONGEST)?;
    let work = words.as_mut_slice();
    report_short(rt, work)?;
    report_bytes(rt, work)?;
    report_many(rt, work)?;
    report_deep(rt, work)
}

fn main(rt: HostRuntime) -> anyhow::Result<()> {
    let mut args = env::args(&rt)?.skip(1);
    match (args.next(), args.next()) {
        (Some(_), Some(path)) => list(&rt, fs::read(&rt, path)?.as_slice()),
        (Some(path), None) => time(&rt, fs::read(&rt, path)?.as_slice()),
        (None, _) => report_all(&rt),
    }
}
