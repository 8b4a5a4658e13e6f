//! Tests of files and their forms by public calls: texts, values, headers, tapes, trees, whole request and reply files, and
//! the records of events. Expected values come from the format and from files and records that another program wrote; each
//! call that takes memory is made once with ample memory, of the forms of messages by way of whole files.
#![tactic(auto)]

#[cfg(test)]
mod files;
#[cfg(test)]
mod headers;
#[cfg(test)]
mod records;
#[cfg(test)]
mod same;
#[cfg(test)]
mod tapes;
#[cfg(test)]
mod texts;
#[cfg(test)]
mod trees;
#[cfg(test)]
mod values;
