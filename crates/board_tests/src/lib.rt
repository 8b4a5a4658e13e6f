//! Tests of a board of tokens by public calls: what its callers are told, one after another and in two threads.
#![tactic(auto)]

#[cfg(test)]
mod boards;
#[cfg(test)]
mod one_thread;
#[cfg(test)]
mod scribe;
#[cfg(test)]
mod two_threads;
