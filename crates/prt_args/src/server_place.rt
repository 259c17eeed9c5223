//! Where a server is.
ghost use Rattle.std.specs.Prelude.{◌≡◌, IfSome, is_some};
ghost use Rattle.prt_args.specs.Places.{IsPlace, is_folder, names_place};

use crate::serving::place_of;
use std::fmt::{self, Display, Formatter};
use std::net::SocketAddrV4;

/// Where a server takes connections.
#[derive(Clone, Copy)]
pub enum ServerPlace<'a> {
    /// At this address and port.
    Address(SocketAddrV4),
    /// At the sockets in the folder of this path.
    Folder(&'a str),
}

impl<'a> Display for ServerPlace<'a> {
    fn fmt<W: fmt::Write>(&self, f: &mut Formatter<W>) -> fmt::Result {
        match self {
            ServerPlace::Address(address) => write!(f, "{address}"),
            ServerPlace::Folder(path) => f.write_str(path),
        }
    }
}

/// Checks that a word has a `/`.
fn is_folder(word: &str) -> bool
    ensures { result ≡ is_folder word.now }
{
    word.contains('/')
}

/// Reads where a server is: a word with a `/` is the path of a folder, any other one is `ADDR:PORT`.
pub(crate) fn server_place_of(word: &str) -> Option<ServerPlace<'_>>
    ensures place { IfSome result (IsPlace word.now) }
    ensures named { is_some result ≡ names_place word.now }
{
    if is_folder(word) {
        return Some(ServerPlace::Folder(word));
    }
    let address = place_of(word)?;
    Some(ServerPlace::Address(address))
}
