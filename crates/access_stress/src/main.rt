//! `access_stress ACCESSES [early]`: a device model whose devices access pages, beside three drivers that free a page as
//! soon as they are told that its invalidation completed. It prints how many accesses ended, how many of them used a page
//! that was free by then, how many walks there were, how many runs found a CMD_SYNC that waits, and how many tokens
//! weren't of an outstanding transaction. With `early` a transaction ends when its access begins: a model with that fault
//! uses pages that are free. Without a number it does nothing.
#![tactic(auto)]

mod access;
mod driver;
mod model;
mod pages;
mod report;
mod run;

use access::Ending;
use std::io::ErrorKind;
use std::{env, io};

fn main(rt: HostRuntime) -> io::Result<()> {
    let words: Vec<String> = env::args(&rt)?.collect(rt.alloc())?;
    let Some(wanted) = words.get(1) else {
        return Ok(());
    };
    let Ok(accesses) = wanted.as_str().parse::<u64>() else {
        return Err(io::Error::from(ErrorKind::InvalidInput));
    };
    let ending = match words.get(2) {
        Some(word) if word.as_str() == "early" => Ending::Early,
        _ => Ending::AfterAccess,
    };
    let report = run::run(&rt, accesses, ending)?;
    println!(rt; "accesses {}", report.accesses)?;
    println!(rt; "of free pages {}", report.of_free_pages)?;
    println!(rt; "walks {}", report.walks)?;
    println!(rt; "waiting {}", report.waiting)?;
    println!(rt; "unknown tokens {}", report.unknown)
}
