//! `ring_bench`: with the word `times` times batches of one sender on one thread; with `threads`, senders and a
//! consumer, each on its own thread. Without a word it does nothing.
#![tactic(auto)]

mod applying;
mod commands;
mod nothing;
mod taker;
mod taking;
mod threads;
mod timing;

use std::{env, io};
use threads::Sending;

fn main(rt: HostRuntime) -> io::Result<()> {
    let words: Vec<String> = env::args(&rt)?.collect(rt.alloc())?;
    for word in words.iter().skip(1) {
        if word.as_str() == "times" {
            timing::time_all(&rt)?;
        } else if word.as_str() == "threads" {
            threads::time_all(&rt, Sending::Stream)?;
            threads::time_all(&rt, Sending::RoundTrip)?;
        }
    }
    Ok(())
}
