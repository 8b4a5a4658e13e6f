//! Tests of a bank that many callers share by public calls: its calls over keepers that fail, its callers by turns, and
//! its due work.
#![tactic(auto)]

#[cfg(test)]
mod callers;
#[cfg(test)]
mod due;
#[cfg(test)]
mod failures;
#[cfg(test)]
mod same;
#[cfg(test)]
mod sample;
#[cfg(test)]
mod script;
#[cfg(test)]
mod two_users;
