//! Tests of guest_forwarding: a guest's commands through a ring, an engine and its caches.
mod forwarding_caller;
mod nothing_to_send;
mod order;
mod own_batches;
mod refusals;
mod words;
