// Lists the names of a text as code, before and after each spelling got one place. With an argument it counts the names of that file
// and their spellings.
#![tactic(auto)]

use code::{Instr, Listing, Slot};
use lexer::{Lexer, Token};
use names::canonical;
use std::alloc::{AllocError, Global};
use std::{env, fs};

fn push_instr(words: &mut Vec<u64>, instr: Instr) -> Result<(), AllocError> {
    let slot = Slot::from(instr);
    words.extend_from_slice(&[slot.op, slot.first, slot.second])
}

// Each name of the text in an instruction.
fn names_of(heap: Global, text: &[u8]) -> Result<Vec<u64>, AllocError> {
    let mut words = Vec::new(heap);
    let mut lexer = Lexer::new(text);
    // The lexer's `next` has a contract of its own, and is no Iterator's.
    while let Some(token) = lexer.next() {
        match token {
            Token::Lower(x) => push_instr(&mut words, Instr::Var(x))?,
            Token::Upper(c) => push_instr(&mut words, Instr::Make(c))?,
            Token::Reserved(_)
            | Token::Mark(_)
            | Token::Number(_)
            | Token::BadNumber
            | Token::Other => {}
        }
    }
    Ok(words)
}

// The places of the names.
fn print_places(rt: &HostRuntime, words: &[u64]) -> anyhow::Result<()> {
    for slot in words.chunks_exact(3) {
        let place = slot[1];
        print!(rt; "{place} ")?;
    }
    println!(rt)?;
    Ok(())
}

// How many buckets are taken.
fn taken(table: &[u64]) -> usize {
    table.iter().filter(|&&word| word > 0).count()
}

fn show(rt: &HostRuntime, text: &[u8]) -> anyhow::Result<()> {
    let mut words = names_of(rt.alloc(), text)?;
    let listing = Listing {
        text,
        words: words.as_slice(),
    };
    print!(rt; "{listing}")?;
    print_places(rt, words.as_slice())?;
    let n = words.len() / 3;
    let mut table = vec![in rt.alloc(); 0u64; words.len()]?;
    let fits = canonical(text, words.as_mut_slice(), n, table.as_mut_slice()).is_ok();
    println!(rt; "fits: {fits}")?;
    print_places(rt, words.as_slice())?;
    let listing = Listing {
        text,
        words: words.as_slice(),
    };
    print!(rt; "{listing}")?;
    Ok(())
}

fn count(rt: &HostRuntime, text: &[u8]) -> anyhow::Result<()> {
    let mut words = names_of(rt.alloc(), text)?;
    let n = words.len() / 3;
    let mut table = vec![in rt.alloc(); 0u64; words.len()]?;
    let fits = canonical(text, words.as_mut_slice(), n, table.as_mut_slice()).is_ok();
    let spellings = taken(table.as_slice());
    println!(rt; "{n} names, {spellings} spellings, fits: {fits}")?;
    Ok(())
}

fn main(rt: HostRuntime) -> anyhow::Result<()> {
    let mut args = env::args(&rt)?;
    let _ = args.next();
    if let Some(path) = args.next() {
        let text = fs::read(&rt, path)?;
        return count(&rt, text.as_slice());
    }
    show(
        &rt,
        b"fn main(): list { let total = Cons(sum, total); give Cons(totals, sum) } # total",
    )
}
