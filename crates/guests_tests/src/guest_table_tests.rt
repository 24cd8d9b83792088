//! Tests of guest_table.
mod making;
mod moving;
mod refusals;
mod table_caller;
