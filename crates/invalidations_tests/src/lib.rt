//! Tests of invalidations, with words worked out by hand or sent by Linux, and of regions and smmu_features.
#![tactic(auto)]

#[cfg(test)]
mod endpoints;
#[cfg(test)]
mod expecting;
#[cfg(test)]
mod gathering;
#[cfg(test)]
mod invalidations_caller;
#[cfg(test)]
mod linux_leaves;
#[cfg(test)]
mod linux_tables;
#[cfg(test)]
mod refusals;
#[cfg(test)]
mod regions_tests;
#[cfg(test)]
mod smmu_features_tests;
#[cfg(test)]
mod whole_spaces;
#[cfg(test)]
mod without_ranges;
#[cfg(test)]
mod worked;
