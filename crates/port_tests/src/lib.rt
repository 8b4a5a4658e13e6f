//! Tests of the outside by public calls: sources, sinks, keepers, stores, clocks, links over a real socket, and heads of HTTP
//! messages.
#![tactic(auto)]

#[cfg(test)]
mod heads;
#[cfg(test)]
mod links;
#[cfg(test)]
mod ports;
#[cfg(test)]
mod same;
#[cfg(test)]
mod stores;
