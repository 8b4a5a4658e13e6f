//! The text that records are bound to, and where another text differs from it.

use std::alloc::{AllocError, Global};

/// A line of a setup without the password that a line of a user ends with.
fn without_password(line: &str) -> &str {
    if !line.starts_with("USER ") {
        return line;
    }
    match line.rsplit_once(' ') {
        Some((prefix, _password)) => prefix,
        None => line,
    }
}

/// The lines of a setup without their passwords, each with an LF. A CR at a line's end isn't there.
pub fn bound_text(alloc: Global, setup: &str) -> Result<String, AllocError> {
    let mut text = String::new(alloc);
    for line in setup.lines() {
        text.push_str(without_password(line))?;
        text.push('\n')?;
    }
    Ok(text)
}

/// The number of the first line, from 1, in which two texts differ. None where they don't.
pub fn first_difference(one: &str, other: &str) -> Option<u64> {
    let mut others = other.lines();
    let mut number = 0u64;
    for line in one.lines() {
        number = number.saturating_add(1);
        if others.next() != Some(line) {
            return Some(number);
        }
    }
    match others.next() {
        Some(_) => Some(number.saturating_add(1)),
        None => None,
    }
}

/// The line of this number, from 1. Empty where there is none.
pub fn line_of(text: &str, number: u64) -> &str {
    let mut before = number;
    for line in text.lines() {
        if before <= 1 {
            return line;
        }
        before -= 1;
    }
    ""
}
