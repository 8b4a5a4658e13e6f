//! Tests of the world by public calls: its steps one by one, and a rehearsal.
#![tactic(auto)]

#[cfg(test)]
mod rehearsals;
#[cfg(test)]
mod steps;
