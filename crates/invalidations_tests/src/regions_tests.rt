//! Tests of regions.
mod addresses;
mod configuration;
mod endpoints;
mod fields;
mod holding;
mod notifying;
mod translations;
