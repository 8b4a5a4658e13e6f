//! Tests of what a keeper over PostgreSQL is built from, by public calls: the sign-on by the vectors of its standards, the
//! messages, the talk, and the engine in memory.
#![tactic(auto)]

#[cfg(test)]
mod engine;
#[cfg(test)]
mod messages;
#[cfg(test)]
mod sign_on;
#[cfg(test)]
mod talk;
