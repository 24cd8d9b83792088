//! Readers, writers and allocations that fail while a schedule is played. tests/schedule.cases has schedules and their
//! answers.
mod memory;
mod streams;
