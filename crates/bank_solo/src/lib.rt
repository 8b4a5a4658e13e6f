//! A bank for one caller: its book and all of its accounts. For an event the accounts that it names are lent to the book, and
//! no others; after its step, or where it is given up, all are in the pool again.
#![tactic(auto)]

mod solo;

pub use solo::SoloBank;
