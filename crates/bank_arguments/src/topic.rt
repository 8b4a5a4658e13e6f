//! The commands by their names, and the arguments that each can't do without.

use crate::mistake::Mistake;
use ofx_types::Text;
use program_arguments::text_at;

/// A command, by its name alone.
#[derive(Clone, Copy, PartialEq, Eq)]
pub enum Topic {
    /// `answer`
    Answer,
    /// `check`
    Check,
    /// `due`
    Due,
    /// `mail`
    Mail,
    /// `rehearse`
    Rehearse,
    /// `serve`
    Serve,
}

impl Topic {
    /// The command of this name.
    pub fn named(name: &str) -> Option<Topic> {
        match name {
            "answer" => Some(Topic::Answer),
            "check" => Some(Topic::Check),
            "due" => Some(Topic::Due),
            "mail" => Some(Topic::Mail),
            "rehearse" => Some(Topic::Rehearse),
            "serve" => Some(Topic::Serve),
            _ => None,
        }
    }

    /// The arguments that it can't do without, after the command.
    pub fn needs(self) -> &'static [&'static str] {
        match self {
            Topic::Answer | Topic::Due => &["SETUP", "RECORDS"],
            Topic::Check => &["SETUP"],
            Topic::Mail => &["SETUP", "RECORDS", "USER", "SUBJECT"],
            Topic::Rehearse => &["SEED"],
            Topic::Serve => &["SETUP", "RECORDS", "PORT", "WORKERS", "CONNECTIONS"],
        }
    }
}

/// The first word at the offset of a path that is none, where a command that opens files is meant. A path doesn't begin with
/// `-`, but for `-` alone, which names no file.
pub fn path_mistake(arguments: &[Text]) -> Option<Mistake<'_>> {
    if text_at(arguments, 0) == "rehearse" {
        return None;
    }
    for (offset, name) in [(1, "SETUP"), (2, "RECORDS")] {
        let path = text_at(arguments, offset);
        if path != "-" && path.starts_with('-') {
            return Some(Mistake::NoPath(name, path));
        }
    }
    None
}
