//! Tests alone, of faults, cores, orders and pictures: what only a test can do. Scenarios with what is printed of them, and traces
//! with what is read of them, are rows of `zk_test_row_player`. They stand in a crate of their own since a crate that has tests is
//! proved once more with them; those of lines, look-ups and a player by hand are laid over by `bench/crate`.
#![tactic(auto)]

#[cfg(test)]
mod cores_tests;
#[cfg(test)]
mod look_tests;
#[cfg(test)]
mod order_tests;
#[cfg(test)]
mod picture_tests;
#[cfg(test)]
mod run_tests;
#[cfg(test)]
mod texts;
