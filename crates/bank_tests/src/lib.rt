//! Tests of what the bank's book is built on, by public calls: setups, histories, used TRNUIDs and kept replies, windows,
//! transfers, recurring transfers and their dates, mails, accounts and their turns. Like cases are in tables; each call that takes memory is made
//! once with ample memory.
#![tactic(auto)]

#[cfg(test)]
mod account_turns;
#[cfg(test)]
mod accounts;
#[cfg(test)]
mod dates;
#[cfg(test)]
mod histories;
#[cfg(test)]
mod mails;
#[cfg(test)]
mod once;
#[cfg(test)]
mod recurring;
#[cfg(test)]
mod same;
#[cfg(test)]
mod sample;
#[cfg(test)]
mod setups;
#[cfg(test)]
mod transfers;
#[cfg(test)]
mod windows;
