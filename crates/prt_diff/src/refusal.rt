use prt_command::Command;

/// Why changes are not written as lines.
#[derive(Clone, Copy, PartialEq)]
pub enum LineError {
    /// No line asks for this command.
    NoLine(Command),
    /// Memory was refused.
    NoMemory,
}
