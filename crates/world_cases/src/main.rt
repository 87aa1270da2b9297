//! Plays events on two sessions of one model that share a memo, on cases of its standard input.
//!
//! Each line of the input is a list of events with `;` between them, and the same line of the output is what came of them: the replies that were
//! told, or the place of the first event that is not allowed, and the counts of the memo. An event is `begin S TIME,CELL`, or `hit`,
//! `miss`, `fill`, `put` or `finish` and the number of the session, 0 or 1. Lines without an event and lines that begin with `#` are
//! written as they are.
#![tactic(auto)]

mod events;
mod playing;

use model_reader::read_automata;
use wave_log::wave_model;

fn main(rt: HostRuntime) {
    let Ok(models) = read_automata(rt.alloc(), wave_model().as_bytes()) else {
        return;
    };
    for line in rt.lines(rt.alloc()) {
        let Ok(line) = line else { return };
        if line.is_empty() || line.starts_with('#') {
            let _ = println!(rt; "{line}");
            continue;
        }
        match playing::answer(rt.alloc(), &models, line.as_str()) {
            Ok(text) => {
                let _ = println!(rt; "{text}");
            }
            Err(why) => {
                let _ = rt.println(why.word());
            }
        }
    }
}
