//! How much the log tells.

/// How much the log tells.
#[derive(Clone, Copy, Debug, PartialEq, Eq)]
pub enum Level {
    /// Nothing.
    Off,
    /// Failed signons, and faults of the bank: of the keeper of its records, of its doorways, and want of memory.
    Warn,
    /// Each exchange.
    Info,
}

impl Level {
    /// The level of this word: `off`, `warn` or `info`, in letters of any case.
    pub fn named(word: &str) -> Option<Level> {
        if word.eq_ignore_ascii_case("off") {
            Some(Level::Off)
        } else if word.eq_ignore_ascii_case("warn") {
            Some(Level::Warn)
        } else if word.eq_ignore_ascii_case("info") {
            Some(Level::Info)
        } else {
            None
        }
    }

    /// Whether anything is reported.
    pub(crate) fn is_on(self) -> bool {
        !matches!(self, Level::Off)
    }

    /// Whether an exchange is reported, by whether it is a warning.
    pub(crate) fn covers(self, is_warning: bool) -> bool {
        match self {
            Level::Off => false,
            Level::Warn => is_warning,
            Level::Info => true,
        }
    }
}
