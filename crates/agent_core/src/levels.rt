//! The levels of the log, which an operator changes while the agent runs.
ghost use Rattle.std.specs.Prelude.{◌≡◌, IfOk, string_bytes};
ghost use Rattle.agent_core.specs.Levels.{level_at, level_line, level_name, level_named, level_number};

use std::alloc::{AllocError, Global};

/// The level of a log, which has what is of this level or of one before it.
#[derive(Clone, Copy, Debug, PartialEq, Eq)]
pub enum LogLevel {
    Off,
    Error,
    Warn,
    Info,
    Debug,
}

impl LogLevel {
    /// Returns the level of this name; None if there is none.
    pub fn named(name: &str) -> Option<LogLevel>
        ensures { result ≡ level_named name.now }
    {
        match name {
            "off" => Some(LogLevel::Off),
            "error" => Some(LogLevel::Error),
            "warn" => Some(LogLevel::Warn),
            "info" => Some(LogLevel::Info),
            "debug" => Some(LogLevel::Debug),
            _ => None,
        }
    }

    /// Returns the level's name: `off`, `error`, `warn`, `info` or `debug`.
    pub fn name(self) -> &'static str
        ensures { result.now ≡ level_name self }
    {
        match self {
            LogLevel::Off => "off",
            LogLevel::Error => "error",
            LogLevel::Warn => "warn",
            LogLevel::Info => "info",
            LogLevel::Debug => "debug",
        }
    }

    /// Returns the level's number, from 0 of `Off` to 4 of `Debug`.
    pub fn number(self) -> u64
        ensures { result ≡ level_number self }
    {
        match self {
            LogLevel::Off => 0,
            LogLevel::Error => 1,
            LogLevel::Warn => 2,
            LogLevel::Info => 3,
            LogLevel::Debug => 4,
        }
    }

    /// Returns the level of this number; `Debug` if it is greater than 4.
    pub fn at(number: u64) -> LogLevel
        ensures { result ≡ level_at number }
    {
        match number {
            0 => LogLevel::Off,
            1 => LogLevel::Error,
            2 => LogLevel::Warn,
            3 => LogLevel::Info,
            _ => LogLevel::Debug,
        }
    }
}

/// Returns the line that tells the level of the log and, if it was changed, the one before: `log level debug, was info` and a newline.
///
/// # Errors
///
/// - `AllocError`: out of memory.
pub fn level_line(
    alloc: Global,
    level: LogLevel,
    before: Option<LogLevel>,
) -> Result<String, AllocError>
    ensures { IfOk result (λ line. string_bytes line ≡ level_line level before) }
{
    let name = level.name();
    match before {
        Some(before) => {
            let was = before.name();
            format!(in alloc; "log level {name}, was {was}\n")
        }
        None => format!(in alloc; "log level {name}\n"),
    }
}
