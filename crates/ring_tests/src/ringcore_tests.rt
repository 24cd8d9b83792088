//! What no clause says: numbers worked out by hand.
mod commands;
mod consumer_view;
mod faults;
mod flags;
mod layout;
mod machine;
mod ring_words;
mod sender_view;
