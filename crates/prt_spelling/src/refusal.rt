/// Why a command has no line.
#[derive(Clone, Copy, Debug, PartialEq, Eq)]
pub enum SpellingError {
    /// No line asks for such a command.
    NoLine,
    /// Memory was refused.
    NoMemory,
}
