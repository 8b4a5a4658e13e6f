//! Tests of the register of downloaded statements by public calls: rows in any order, clashes, what a run prints and saves, inputs
//! and stores without a form, and calls of the outside that fail.
#![tactic(auto)]

#[cfg(test)]
mod hostile;
#[cfg(test)]
mod imports;
#[cfg(test)]
mod registers;
#[cfg(test)]
mod runs;
#[cfg(test)]
mod sample;
