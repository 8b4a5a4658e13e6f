//! Recurring transfers: the dates of a series, the rows of the models, and what is refused of a deed on them.
//!
//! `date_of` gives the k-th date of a series from its first alone. `judge_model`, `judge_model_modify` and
//! `judge_model_cancel` give the code of a deed. `Models` holds the row of each recurring transfer with how many
//! transfers it has made; its contracts say what it answers by the list of entries that it stands for.
#![tactic(auto)]

mod date;
mod judging;
pub mod laws;
mod models;
mod series;
mod spawn;
mod upcoming;

pub use date::{
    civil_of_its_day, date_of, day_of_its_civil_date, series_begins, series_ends,
    series_has_few_occurrences, series_rises,
};
pub use judging::{judge_model, judge_model_cancel, judge_model_modify};
pub use models::Models;
