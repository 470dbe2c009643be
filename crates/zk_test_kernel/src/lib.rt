//! Tests alone: of the shared kernel as its callers use it, on one thread and on many. The longer ones are laid over by `bench/crate`.
#![tactic(auto)]

#[cfg(test)]
mod call_tests;
#[cfg(test)]
mod moves;
#[cfg(test)]
mod ones;
#[cfg(test)]
mod parts;
#[cfg(test)]
mod played;
#[cfg(test)]
mod rounds;
#[cfg(test)]
mod scenarios;
#[cfg(test)]
mod step_tests;
#[cfg(test)]
mod texts;
