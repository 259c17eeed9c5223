use crate::reply::Reply;

/// Is notified of each line of a session, and changes nothing of it.
///
/// The refusal of what follows the last line that a session may have is a reply to no line, and is not reported.
pub trait Observer {
    /// Comes before a line is executed. Lines are numbered from 1.
    fn before(&mut self, line: u64);

    /// Comes once the line was replied to, or once that failed. `text` is what was read of the line, without its
    /// newline, or the first 1,024 bytes of that.
    fn after(&mut self, line: u64, text: &[u8], reply: &Reply);
}

/// Nobody looks on.
#[derive(Clone, Copy)]
pub struct Unobserved;

impl Observer for Unobserved {
    fn before(&mut self, _line: u64) {}

    fn after(&mut self, _line: u64, _text: &[u8], _reply: &Reply) {}
}
