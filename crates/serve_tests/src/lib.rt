//! Tests of the bank's server by public calls: connections in memory, and workers at once, one of them over a real socket.
#![tactic(auto)]

#[cfg(test)]
mod connections;
#[cfg(test)]
mod one_thread;
#[cfg(test)]
mod same;
#[cfg(test)]
mod sample;
#[cfg(test)]
mod servers;
