//! `unit_bench`: with the word `sizes` times commands that remove nothing in caches of several sizes; with `cold` times
//! single commands and look-ups of a unit, each after a walk over other memory; with `tracking` times calls of a unit that
//! tracks walks and transactions, beside those of one that doesn't. Without a word it does nothing.
#![tactic(auto)]

mod cold;
mod sizes;
mod tracking;

use std::{env, io};

fn main(rt: HostRuntime) -> io::Result<()> {
    let words: Vec<String> = env::args(&rt)?.collect(rt.alloc())?;
    for word in words.iter().skip(1) {
        if word.as_str() == "sizes" {
            sizes::time_all(&rt)?;
        } else if word.as_str() == "cold" {
            cold::time_all(&rt)?;
        } else if word.as_str() == "tracking" {
            tracking::time_all(&rt)?;
        }
    }
    Ok(())
}
