//! How a run ended, and what more is known of why.

use crate::messages::plain;
use ofx_types::Told;
use record_files::Cause;

/// Why a port can't be had.
#[derive(Clone, Copy)]
pub enum PortFault {
    /// Another program has it.
    Busy,
    /// The rights to it are missing.
    NoRights,
    /// Another cause.
    Other,
}

/// How a run ended.
pub struct End {
    /// Its status, with the note of its first line.
    pub told: Told,
    /// Why the port couldn't be had, where that ended it.
    pub port: Option<PortFault>,
    /// Why the records couldn't be opened, or nothing more was kept in them, where that ended it and is known.
    pub cause: Option<Cause>,
}

impl End {
    /// An end of which no more is known.
    pub fn of(told: Told) -> End {
        End {
            told,
            port: None,
            cause: None,
        }
    }

    /// An end with this status alone.
    pub fn plain(status: u8) -> End {
        End::of(plain(status))
    }

    /// The end of a server that couldn't have its port.
    pub fn without_port(fault: PortFault) -> End {
        End {
            told: plain(5),
            port: Some(fault),
            cause: None,
        }
    }

    /// The end where the records gave the cause.
    pub fn by_records(status: u8, cause: Cause) -> End {
        End {
            told: plain(status),
            port: None,
            cause: Some(cause),
        }
    }
}
