//! Answers cases of exact arithmetic on fractions, rows and systems.
//!
//! Each line of the input is a word and its arguments, and the same line of the output is what the call of this name answers. Lines
//! without a word and lines that begin with `#` are written as they are.
//!
//! Arguments are parted by `|`, and written as `case_texts` says.
#![tactic(auto)]

mod numbers;
mod rows;
mod systems;

use case_texts::Missing;
use std::alloc::Global;

/// The answer to a case.
fn answer(alloc: Global, word: &str, args: &str) -> Result<String, Missing> {
    match word {
        "make" | "add" | "sub" | "mul" | "neg" | "cmp" | "hash" | "decimal" | "literal" => {
            numbers::answer(alloc, word, args)
        }
        "row" | "combine" | "eval" | "place" | "cut" | "dominated" | "point" => {
            rows::answer(alloc, word, args)
        }
        _ => systems::answer(alloc, word, args),
    }
}

/// Writes the answer to a line.
fn answer_line(rt: &HostRuntime, line: &str) {
    if line.is_empty() || line.starts_with('#') {
        let _ = println!(rt; "{line}");
        return;
    }
    let (word, args) = line.split_once(' ').unwrap_or((line, ""));
    match answer(rt.alloc(), word, args) {
        Ok(text) => {
            let _ = println!(rt; "{text}");
        }
        Err(why) => {
            let _ = rt.println(why.word());
        }
    }
}

fn main(rt: HostRuntime) {
    for line in rt.lines(rt.alloc()) {
        let Ok(line) = line else { return };
        answer_line(&rt, line.as_str());
    }
}
