//! Steps as lines of a text: `look c`, `look SENDER`, `reserve SENDER TAGS`, `bare SENDER TAGS`, `write SENDER SLOT
//! HALF`, `flip SENDER SLOT COUNT`, `test SLOT COUNT`, `read SLOT HALF`, `advance COUNT`, `close SENDER`, `ack SENDER
//! NUMBER` and `ask SENDER`. `reserve-many` and `bare-many` have a count instead of tags, and `reserve-ste` has one
//! CMD_CFGI_STE.
use cmdcodec::{Raw, RawList};
use ringcore::Step;
use std::alloc::Global;
use std::str::SplitWhitespace;

/// A TLBI_NH_VA: the tag is its ASID, and its page.
fn command(tag: u16) -> Raw {
    let tag = u64::from(tag);
    Raw {
        lo: (tag << 48) | 0x12,
        hi: tag << 12,
    }
}

/// A body of `count` commands, at most 64, with tags from 0 on.
fn many(count: u16) -> RawList {
    let mut list = RawList::new();
    for tag in 0..count {
        if !list.is_full() {
            list.push(command(tag));
        }
    }
    list
}

/// A body of the commands of these tags, at most 64.
fn body(tags: &str) -> Option<RawList> {
    let mut list = RawList::new();
    for word in tags.split_whitespace() {
        let tag = word.parse().ok()?;
        if !list.is_full() {
            list.push(command(tag));
        }
    }
    Some(list)
}

fn stream() -> RawList {
    let mut list = RawList::new();
    list.push(Raw {
        lo: 0x5_0000_0003,
        hi: 0x1,
    });
    list
}

pub fn next_number(words: &mut SplitWhitespace<'_>) -> Option<u32> {
    words.next()?.parse().ok()
}

/// Parses a reservation of a sender, of the commands in the rest of a line.
fn reserve(name: &str, rest: &str) -> Option<Step> {
    let (number, commands) = rest.split_once(" ").unwrap_or((rest, ""));
    let sender = number.parse().ok()?;
    let (body, closes) = match name {
        "reserve" => (body(commands)?, true),
        "bare" => (body(commands)?, false),
        "reserve-many" => (many(commands.parse().ok()?), true),
        "bare-many" => (many(commands.parse().ok()?), false),
        "reserve-ste" => (stream(), true),
        _ => return None,
    };
    Some(Step::Reserve {
        sender,
        body,
        closes,
    })
}

/// A step with one number.
fn of_one(name: &str, number: u32) -> Option<Step> {
    match name {
        "look" => Some(Step::Look { who: Some(number) }),
        "advance" => Some(Step::Advance { count: number }),
        "close" => Some(Step::Close { sender: number }),
        "ask" => Some(Step::Ask { sender: number }),
        _ => None,
    }
}

/// A step with two numbers.
fn of_two(name: &str, first: u32, second: u32) -> Option<Step> {
    match name {
        "test" => Some(Step::Test {
            slot: first,
            count: second,
        }),
        "read" => Some(Step::Read {
            slot: first,
            half: second,
        }),
        "ack" => Some(Step::Acknowledge {
            sender: first,
            number: second,
        }),
        _ => None,
    }
}

/// A step of a sender at a slot, with a half or a count.
fn of_three(name: &str, sender: u32, slot: u32, last: u32) -> Option<Step> {
    match name {
        "write" => Some(Step::Write {
            sender,
            slot,
            half: last,
        }),
        "flip" => Some(Step::Flip {
            sender,
            slot,
            count: last,
        }),
        _ => None,
    }
}

/// Parses a step that has only numbers.
fn numbered(name: &str, text: &str) -> Option<Step> {
    let mut words = text.split_whitespace();
    let first = next_number(&mut words)?;
    match (next_number(&mut words), next_number(&mut words)) {
        (None, _) => of_one(name, first),
        (Some(second), None) => of_two(name, first, second),
        (Some(second), Some(third)) => of_three(name, first, second, third),
    }
}

/// Parses a line as a step, if it is one.
pub fn step(line: &str) -> Option<Step> {
    if line == "look c" {
        return Some(Step::Look { who: None });
    }
    let (name, rest) = line.split_once(" ")?;
    if name.contains("reserve") || name.contains("bare") {
        return reserve(name, rest);
    }
    numbered(name, rest)
}

/// Parses the steps of a text, without the answers that may follow them.
pub fn steps(alloc: Global, text: &str) -> Option<Vec<Step>> {
    let mut found = Vec::new(alloc);
    for line in text.lines() {
        if !line.starts_with("#") {
            let (asked, _) = line.split_once(" = ").unwrap_or((line, ""));
            found.push(step(asked)?).ok()?;
        }
    }
    Some(found)
}
