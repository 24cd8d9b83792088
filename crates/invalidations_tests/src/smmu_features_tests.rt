//! Tests of smmu_features.
mod guest;
mod judging;
mod model;
mod registers;
