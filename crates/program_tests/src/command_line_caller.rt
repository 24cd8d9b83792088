//! The caller that command_line's README shows.
use command_line::{Subcommand, understand};

#[test]
fn a_word_and_a_number_out_of_range(rt: HostRuntime) {
    let words = ["decode", "03000000050000000100000000000000"];
    let Ok(Subcommand::Decode(word)) = understand(rt.alloc(), &words) else {
        panic!(rt; "a word is to be decoded");
    };
    assert_eq!(rt; word, words[1]);
    // A ring of 2^20 slots.
    let words = ["stress", "--log2", "20"];
    let Err(fault) = understand(rt.alloc(), &words) else {
        panic!(rt; "a ring of 2^20 slots is too large");
    };
    assert!(rt; fault.is_fault());
}
