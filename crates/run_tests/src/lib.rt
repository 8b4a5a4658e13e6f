//! Tests of the book and of whole runs by public calls, over sources, sinks, keepers and clocks in memory: calls that fail
//! one at a time, the runs after them, records that open a bank or none, and letters.
#![tactic(auto)]

#[cfg(test)]
mod books;
#[cfg(test)]
mod runs;
#[cfg(test)]
mod same;
#[cfg(test)]
mod sample;
