/// How a line gives the protocol and the scope of a route.
#[derive(Clone, Copy)]
pub enum NameForm {
    /// By its name, if it has one, as a listing shows it.
    ByName,
    /// By its number. In one `ip -batch` a number between two equal names takes the place of the second, and the names of a host
    /// may stand for other numbers.
    ByNumber,
}
