//! Tests alone: of services in cells, of signals and of pools, by the callers of `zk_uses` on one thread and on many. They stand
//! here, since a crate that has tests is proved once more with them; more of them are laid over by `bench/crate`.
#![tactic(auto)]

#[cfg(test)]
mod pool_tests;
#[cfg(test)]
mod signal_tests;
#[cfg(test)]
mod tests;
#[cfg(test)]
mod turn_tests;
