//! Does one thing again and again, to be timed from outside: `elimination`, `reading` or `step`, as its word says, or all three
//! where it has no word. It prints what came of each.
#![tactic(auto)]

mod elimination;
mod reading;
mod rows;
mod step;

use std::{env, io};

/// The words behind the program's name.
fn words_of(rt: &HostRuntime) -> io::Result<Vec<String>> {
    Ok(env::args(rt)?.skip(1).collect(rt.alloc())?)
}

/// Whether the first word is this one, or there is none.
fn asks(words: &[String], name: &str) -> bool {
    match words.first() {
        Some(word) => word.as_str() == name,
        None => true,
    }
}

fn main(rt: HostRuntime) {
    let alloc = rt.alloc();
    let Ok(words) = words_of(&rt) else { return };
    if asks(&words, "elimination")
        && let Some((left, rounds)) = elimination::timed(alloc)
    {
        let _ = println!(rt; "{} rows left of {} eliminations", left, rounds);
    }
    if asks(&words, "reading")
        && let Some((count, rounds)) = reading::timed(alloc)
    {
        let _ = println!(rt; "{} rows read in {} readings", count, rounds);
    }
    if asks(&words, "step")
        && let Some((count, rounds)) = step::timed(alloc)
    {
        let _ = println!(rt; "{} states after {} gaps", count, rounds);
    }
}
