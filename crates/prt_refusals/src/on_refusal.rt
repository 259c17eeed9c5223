/// What a session does after a refused line.
#[derive(Clone, Copy)]
pub enum OnRefusal {
    /// End, and leave the rest unread.
    Stop,
    /// Go on with the next line.
    GoOn,
}
