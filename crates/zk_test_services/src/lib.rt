//! Tests alone: of what no program uses (`Notes`), of a table of timeouts and a ring that is filled again and again, of waits
//! that a test decides, and of streams that fail. What the services answer is rows of `zk_test_row_player`; the long tests are
//! laid over by `bench/crate`.
#![tactic(auto)]

#[cfg(test)]
mod note_tests;
#[cfg(test)]
mod ring_tests;
#[cfg(test)]
mod stream_tests;
#[cfg(test)]
mod timeout_tests;
#[cfg(test)]
mod wait_tests;
