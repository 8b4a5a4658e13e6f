//! Amounts, dates and numbers of the Open Financial Exchange format, read from the values of elements and printed
//! into replies, and the calendar days of moments.
#![tactic(auto)]

mod amount;
mod date;
mod day;
mod digits;
mod fault;
pub mod laws;
mod number;
mod print;
mod zone;

pub use amount::read_amount;
pub use date::read_moment;
pub use day::{day_of, midnight};
pub use fault::ValueFault;
pub use number::read_number;
pub use print::{print_amount, print_moment, print_number};
