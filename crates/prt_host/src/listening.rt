//! The ports and sockets at which a server listens.

use prt_args::ServeArgs;
use prt_machine::{ServerNet, Socket};
use prt_serve::{Listeners, SessionKind, SessionListener};
use std::alloc::Global;
use std::fmt;
use std::io::{self, ErrorKind, Write};
use std::net::{OpenListener, SocketAddr, SocketAddrV4};

/// The names of the sockets in their directory, in the order in which they are made. The status comes first: to ask there
/// whether an earlier server still answers takes no session of it.
const SOCKETS: [Socket; 4] = [
    Socket::Status,
    Socket::Session,
    Socket::Atomic,
    Socket::Feed,
];

/// A place at which a server listens.
#[derive(Clone, Copy)]
pub(crate) enum ListenPlace<'a> {
    Address(SocketAddrV4),
    /// A directory, and the name of a socket in it.
    Socket(&'a str, &'static str),
    /// A directory of sockets.
    Directory(&'a str),
    /// Where it is said that a server listens.
    Output,
}

impl<'a> fmt::Display for ListenPlace<'a> {
    fn fmt<W: fmt::Write>(&self, f: &mut fmt::Formatter<W>) -> fmt::Result {
        match self {
            ListenPlace::Address(address) => write!(f, "{address}"),
            ListenPlace::Socket(directory, name) => write!(f, "{directory}/{name}"),
            ListenPlace::Directory(directory) => write!(f, "{directory}"),
            ListenPlace::Output => f.write_str("standard output"),
        }
    }
}

/// Why nothing listens at a place.
#[derive(Drop)]
pub(crate) enum ListenError {
    /// Another server listens at the socket.
    Served,
    /// The file is no socket.
    NoSocket,
    /// The directory has no name, so the sockets would be in the root.
    NoName,
    System(io::Error),
}

impl ListenError {
    /// Says why a socket can't be made.
    fn of_socket(error: io::Error) -> ListenError {
        match error.kind() {
            ErrorKind::AddrInUse => ListenError::Served,
            ErrorKind::AlreadyExists => ListenError::NoSocket,
            _ => ListenError::System(error),
        }
    }
}

impl fmt::Display for ListenError {
    fn fmt<W: fmt::Write>(&self, f: &mut fmt::Formatter<W>) -> fmt::Result {
        match self {
            ListenError::Served => f.write_str("another server listens there"),
            ListenError::NoSocket => f.write_str("the file is no socket"),
            ListenError::NoName => f.write_str("the name of the directory is empty"),
            ListenError::System(error) => write!(f, "{error}"),
        }
    }
}

/// A place that can't be listened at, and why.
pub(crate) struct PlaceError<'a> {
    pub(crate) place: ListenPlace<'a>,
    pub(crate) error: ListenError,
}

/// A socket file that a server made.
#[derive(Drop)]
struct SocketFile {
    path: String,
    inode: Option<u64>,
}

impl SocketFile {
    /// Removes it, unless another server has put one in its place.
    fn remove<N: ServerNet>(&self, rt: &N) {
        rt.remove_socket(&self.path, self.inode);
    }
}

/// Where a server listens, and the socket files that it made.
#[derive(Drop)]
pub(crate) struct Listening<N: ServerNet> {
    pub(crate) listeners: Listeners<N::ServerListener>,
    files: Vec<SocketFile>,
}

impl<N: ServerNet> Listening<N> {
    fn new(alloc: Global) -> Listening<N> {
        Listening {
            listeners: Listeners {
                sessions: Vec::new(alloc),
                feeds: Vec::new(alloc),
                status: None,
            },
            files: Vec::new(alloc),
        }
    }

    /// Adds a listener for sessions.
    fn add_sessions(&mut self, listener: N::ServerListener, kind: SessionKind) -> io::Result<()> {
        self.listeners
            .sessions
            .push(SessionListener { listener, kind })?;
        Ok(())
    }

    /// Adds a listener for what a socket is for.
    fn add(&mut self, socket: Socket, listener: N::ServerListener) -> io::Result<()> {
        match socket {
            Socket::Status => self.listeners.status = Some(listener),
            Socket::Session => self.add_sessions(listener, SessionKind::InTurn)?,
            Socket::Atomic => self.add_sessions(listener, SessionKind::Together)?,
            Socket::Feed => self.listeners.feeds.push(listener)?,
        }
        Ok(())
    }

    /// Makes a socket in a directory, and listens there.
    fn open_socket(
        &mut self,
        rt: &N,
        alloc: Global,
        directory: &str,
        socket: Socket,
    ) -> io::Result<()> {
        let path = format!(in alloc; "{directory}/{}", socket.name())?;
        self.files.reserve(1)?;
        let listener = rt.at_path(&path)?;
        let inode = rt.inode_at(&path);
        self.files.push_reserved(SocketFile { path, inode });
        self.add(socket, listener)
    }

    /// Makes all sockets in a directory.
    fn open_sockets<'a>(
        &mut self,
        rt: &N,
        alloc: Global,
        directory: &'a str,
    ) -> Result<(), PlaceError<'a>> {
        if directory.is_empty() {
            return Err(PlaceError {
                place: ListenPlace::Directory("--sockets"),
                error: ListenError::NoName,
            });
        }
        for socket in SOCKETS {
            if let Err(error) = self.open_socket(rt, alloc, directory, socket) {
                let place = match error.kind() {
                    ErrorKind::NotFound => ListenPlace::Directory(directory),
                    _ => ListenPlace::Socket(directory, socket.name()),
                };
                let error = ListenError::of_socket(error);
                return Err(PlaceError { place, error });
            }
        }
        Ok(())
    }

    /// Removes the socket files, except those in whose place another server has put its own.
    pub(crate) fn remove_files(&self, rt: &N) {
        for file in &self.files {
            file.remove(rt);
        }
    }
}

/// Listens at a port. Returns the address too, in which port 0 is a free one.
fn bind<N: ServerNet>(rt: &N, place: SocketAddrV4) -> io::Result<(N::ServerListener, SocketAddr)> {
    let listener = rt.at_address(place)?;
    let address = listener.local_addr()?;
    Ok((listener, address))
}

/// Says on `output` that a server listens at a place, after this word.
fn tell_place<P: fmt::Display, W: Write>(
    word: &str,
    place: &P,
    output: &mut W,
) -> Result<(), PlaceError<'static>> {
    let told = write!(output, "{word} {place}\n").and_then(|()| output.flush());
    named(ListenPlace::Output, told)
}

/// Names the place in the error, if there is one.
fn named<T>(place: ListenPlace<'_>, done: io::Result<T>) -> Result<T, PlaceError<'_>> {
    match done {
        Ok(made) => Ok(made),
        Err(error) => Err(PlaceError {
            place,
            error: ListenError::System(error),
        }),
    }
}

/// Listens at a port for what a socket is for, if one is asked for, and says where on `output`, after this word.
fn open_port<N: ServerNet, W: Write>(
    listening: &mut Listening<N>,
    rt: &N,
    socket: Socket,
    asked: Option<SocketAddrV4>,
    word: &str,
    output: &mut W,
) -> Result<(), PlaceError<'static>> {
    let Some(place) = asked else {
        return Ok(());
    };
    let (listener, address) = named(ListenPlace::Address(place), bind(rt, place))?;
    named(ListenPlace::Address(place), listening.add(socket, listener))?;
    tell_place(word, &address, output)
}

/// Listens at the ports that are asked for.
fn open_ports<N: ServerNet, W: Write>(
    listening: &mut Listening<N>,
    rt: &N,
    asked: &ServeArgs<'_>,
    output: &mut W,
) -> Result<(), PlaceError<'static>> {
    open_port(
        listening,
        rt,
        Socket::Session,
        asked.listen,
        "listening",
        output,
    )?;
    open_port(
        listening,
        rt,
        Socket::Atomic,
        asked.atomic,
        "atomic",
        output,
    )?;
    open_port(listening, rt, Socket::Feed, asked.feed, "feeding", output)
}

/// Listens at all places that are asked for.
fn open_all<'a, N: ServerNet, W: Write>(
    listening: &mut Listening<N>,
    rt: &N,
    alloc: Global,
    asked: &ServeArgs<'a>,
    output: &mut W,
) -> Result<(), PlaceError<'a>> {
    open_ports(listening, rt, asked, output)?;
    if let Some(directory) = asked.sockets {
        listening.open_sockets(rt, alloc, directory)?;
        tell_place("sockets", &directory, output)?;
    }
    Ok(())
}

/// Listens where it is asked for, and says where on `output`, before anything is accepted: `listening ADDR:PORT`, `atomic
/// ADDR:PORT`, `feeding ADDR:PORT` and `sockets DIR`, each if it is open.
///
/// # Errors
///
/// The first place that can't be listened at, and why. No socket file is left then of those that were made.
pub(crate) fn listen<'a, N: ServerNet, W: Write>(
    rt: &N,
    alloc: Global,
    asked: &ServeArgs<'a>,
    output: &mut W,
) -> Result<Listening<N>, PlaceError<'a>> {
    let mut listening = Listening::new(alloc);
    match open_all(&mut listening, rt, alloc, asked, output) {
        Ok(()) => Ok(listening),
        Err(failure) => {
            listening.remove_files(rt);
            Err(failure)
        }
    }
}
