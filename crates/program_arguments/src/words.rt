//! The words of a command line, read as texts.

use ofx_types::{Text, TextFault};
use std::rt::Env;
use std::{env, fmt, io};

/// The most bytes of a word.
const MAX_WORD: u32 = 10_000;

/// Why a command line isn't read.
#[derive(Clone, Copy)]
pub enum Unread {
    /// The word of this number, from 1, is no text, or too long.
    NoText(usize),
    /// A word isn't UTF-8.
    NoUnicode,
    /// Memory was refused.
    NoMemory,
}

impl fmt::Display for Unread {
    fn fmt<W: fmt::Write>(&self, f: &mut fmt::Formatter<W>) -> fmt::Result {
        match *self {
            Unread::NoText(number) => write!(
                f,
                "word {number} has a byte that no word may have, or has more than {MAX_WORD} bytes"
            ),
            Unread::NoUnicode => f.write_str("a word isn't UTF-8"),
            Unread::NoMemory => f.write_str("no memory"),
        }
    }
}

/// The words after the program's name, each without the white space at its ends. If the first word is one of `alone`, no other
/// word is read.
pub fn read_words<R: Env + AllocGlobal>(rt: &R, alone: &[&str]) -> Result<Vec<Text>, Unread> {
    let raw_arguments = match env::args(rt) {
        Ok(raw_arguments) => raw_arguments,
        Err(error) => return Err(refused(&error)),
    };
    let mut arguments = Vec::new(rt.alloc());
    for raw_argument in raw_arguments.skip(1) {
        let is_alone = arguments.is_empty() && is_among(raw_argument.as_str(), alone);
        match Text::new(rt.alloc(), raw_argument.as_bytes(), MAX_WORD) {
            Ok(argument) => {
                if arguments.push(argument).is_err() {
                    return Err(Unread::NoMemory);
                }
            }
            Err(TextFault::OutOfMemory) => return Err(Unread::NoMemory),
            Err(_) => return Err(Unread::NoText(arguments.len().saturating_add(1))),
        }
        if is_alone {
            break;
        }
    }
    Ok(arguments)
}

/// Whether a word is one of these.
fn is_among(argument: &str, options: &[&str]) -> bool {
    options.iter().any(|option| *option == argument)
}

/// Why words couldn't be had.
fn refused(error: &io::Error) -> Unread {
    match error.kind() {
        io::ErrorKind::OutOfMemory => Unread::NoMemory,
        _ => Unread::NoUnicode,
    }
}
