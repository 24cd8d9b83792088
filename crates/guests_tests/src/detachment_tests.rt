//! Tests of detachment.
mod changes_refused;
mod detachment_caller;
mod device;
mod making;
mod meanwhile;
mod receipts;
mod refusals;
mod stage_2;
mod without_ats;
mod worked;
