//! The variables of the environment that a run reads, and what each asks.

use machine_adapters::{BODY_SECONDS, HEAD_SECONDS, LinkLimits};
use serve_log::Level;
use std::env::VarError;
use std::{env, fmt};

/// How much a server reports: `off`, `warn` or `info`, in letters of any case. Each exchange where it isn't set or has another
/// value.
const LOG: &str = "OFXBANK_LOG";

/// The variables whose values are numbers. One that isn't set, or is empty, asks nothing.
const DAYS_BEHIND: Number = Number {
    name: "OFXBANK_MAX_DAYS",
    least: 0,
    most: 4_000_000,
};

const EXPECT_RECORDS: Number = Number {
    name: "OFXBANK_EXPECT_RECORDS",
    least: 0,
    most: 1,
};

/// How many seconds the head of a request may take, from its first byte to its last.
const HEAD: Number = Number {
    name: "OFXBANK_HEAD_SECONDS",
    least: 1,
    most: MAX_LINK_SECONDS,
};

/// How many seconds its body may take after it.
const BODY: Number = Number {
    name: "OFXBANK_BODY_SECONDS",
    least: 1,
    most: MAX_LINK_SECONDS,
};

/// How many bytes the reply to a new file may have. A client reads no longer one than the most that it may be.
const REPLY: Number = Number {
    name: "OFXBANK_MAX_REPLY",
    least: 65_536,
    most: 67_108_864,
};

/// How many bytes it may have where the variable isn't set: 16 MiB.
const MAX_REPLY: u64 = 16_777_216;

/// The most seconds that a part of a request may be given.
const MAX_LINK_SECONDS: u64 = 3600;

/// What the environment asks of a run.
#[derive(Clone, Copy)]
pub struct Environment {
    /// How much a server reports.
    pub level: Level,
    /// How many days the records may lie behind the clock where a run starts. None where they may lie any number behind.
    pub max_days: Option<u64>,
    /// Whether the file of records has to be there where a run starts, with bytes in it.
    pub expects_records: bool,
    /// How long the parts of a request to a server may take.
    pub limits: LinkLimits,
    /// How many bytes a server's reply to a new file may have.
    pub most_reply: usize,
}

impl Environment {
    /// What is asked, or the first variable that isn't as it has to be.
    pub fn read(rt: &HostRuntime) -> Result<Environment, BadVariable> {
        Ok(Environment {
            level: log_level(rt),
            max_days: DAYS_BEHIND.read(rt)?,
            expects_records: EXPECT_RECORDS.read(rt)? == Some(1),
            limits: LinkLimits::of_seconds(
                HEAD.read(rt)?.unwrap_or(HEAD_SECONDS),
                BODY.read(rt)?.unwrap_or(BODY_SECONDS),
            ),
            most_reply: REPLY.read(rt)?.unwrap_or(MAX_REPLY) as usize,
        })
    }
}

/// A variable whose value isn't as it has to be.
#[derive(Clone, Copy)]
pub struct BadVariable {
    number: Number,
}

impl fmt::Display for BadVariable {
    fn fmt<W: fmt::Write>(&self, f: &mut fmt::Formatter<W>) -> fmt::Result {
        let Number { name, least, most } = self.number;
        write!(
            f,
            "{name}: its value in the environment has to be a number from {least} to {most}"
        )
    }
}

/// A variable whose value is a number, and the bounds of it.
#[derive(Clone, Copy)]
struct Number {
    name: &'static str,
    least: u64,
    most: u64,
}

impl Number {
    /// The number. None where the variable isn't set, or is empty.
    fn read(self, rt: &HostRuntime) -> Result<Option<u64>, BadVariable> {
        let value = match env::var(rt, self.name) {
            Ok(value) => value,
            Err(VarError::NotPresent) => return Ok(None),
            Err(_) => return Err(BadVariable { number: self }),
        };
        if value.as_str().is_empty() {
            return Ok(None);
        }
        match value.as_str().parse::<u64>() {
            Ok(number) if self.least <= number && number <= self.most => Ok(Some(number)),
            _ => Err(BadVariable { number: self }),
        }
    }
}

/// How much is reported: what the variable says, and each exchange where it isn't set or has another value.
fn log_level(rt: &HostRuntime) -> Level {
    match env::var(rt, LOG) {
        Ok(word) => Level::named(word.as_str()).unwrap_or(Level::Info),
        Err(_) => Level::Info,
    }
}
