//! Unix sockets as connections of the network.
ghost use Rattle.std.specs.Prelude.{IfOk};

use prt_args::ServerPlace;
use std::alloc::Global;
use std::io::{self, Write};
use std::net::{Net, OpenStream, SocketAddr, TcpListener, TcpStream};
use std::os::fd::{AsFd, OwnedFd};
use std::os::unix::net::{UnixListener, UnixStream};
use std::time::Duration;

/// A socket in the folder of a server.
#[derive(Clone, Copy)]
pub enum Socket {
    /// It says how the server does.
    Status,
    /// For sessions.
    Session,
    /// For scripts whose commands are made together.
    Atomic,
    /// For clients that follow.
    Feed,
}

impl Socket {
    /// Returns the name of its file.
    pub fn name(self) -> &'static str {
        match self {
            Socket::Status => "status",
            Socket::Session => "session",
            Socket::Atomic => "atomic",
            Socket::Feed => "feed",
        }
    }
}

/// A network whose connections may come by Unix sockets too.
pub trait LocalNet: Net {
    ghost use Rattle.std.specs.Prelude.{List, ℕ};
    ghost use Rattle.prt_args.specs.declared.server_place.ServerPlace.{ServerPlace as Place};
    ghost use Rattle.prt_machine.specs.declared.local.Socket.{Socket};

    /// That a connection to this socket of the server at a place, over which these bytes were sent, may be this.
    ghost reaches: { Self → Place → Socket → List ℕ → Self.Stream → Type 0 };

    /// Connects to the server at a place, and sends it these bytes. At an address `socket` says nothing. No read and no write
    /// of the connection waits for longer than `patience`.
    ///
    /// # Errors
    ///
    /// The system's. `WouldBlock` or `TimedOut` if the server doesn't take the bytes in time.
    fn reach(
        &self,
        alloc: Global,
        place: &ServerPlace<'_>,
        socket: Socket,
        patience: Duration,
        sent: &[u8],
    ) -> io::Result<Self::Stream>
        ensures { IfOk result (reaches self.now place.now socket sent.now) };

    /// Makes a connection of the network of one by a Unix socket. Its calls are those of the socket; one that only TCP has
    /// fails.
    fn stream_of(stream: UnixStream) -> Self::Stream;

    /// Makes a socket file at a path, with a mode of the umask, and listens there.
    ///
    /// # Errors
    ///
    /// The system's: `AddrInUse` if anything is at the path. `InvalidInput` for a path that is too long for a socket.
    fn bind_local(&self, path: &str) -> io::Result<UnixListener>;

    /// Has an `accept` of the listener return after this time with `WouldBlock` if nobody comes. A connection that it accepts
    /// may have this as the time limit of its reads.
    fn set_accept_timeout(listener: &Self::Listener, patience: Duration) -> io::Result<()>;
}

/// Has an `accept` of the socket return after this time.
fn limit_accept(socket: OwnedFd, patience: Duration) -> io::Result<()> {
    // The time limit for reads is of the open socket, and it is the limit of `accept`. This handle of it is closed again.
    TcpStream::from(socket).set_read_timeout(Some(patience))
}

/// As `set_accept_timeout`, of a listener at a path.
pub fn set_local_accept_timeout(listener: &UnixListener, patience: Duration) -> io::Result<()> {
    limit_accept(listener.as_fd().try_clone_to_owned()?, patience)
}

/// Connects to a socket in a folder.
fn connect_in(
    rt: &HostRuntime,
    alloc: Global,
    folder: &str,
    socket: Socket,
) -> io::Result<TcpStream> {
    let path = format!(in alloc; "{folder}/{}", socket.name())?;
    let stream = UnixStream::connect(rt, path.as_str())?;
    Ok(TcpStream::from(OwnedFd::from(stream)))
}

/// Connects to a server: to its address, or to a socket in its folder. No read and no write waits for longer than this.
fn connect(
    rt: &HostRuntime,
    alloc: Global,
    place: &ServerPlace<'_>,
    socket: Socket,
    patience: Duration,
) -> io::Result<TcpStream> {
    let stream = match place {
        ServerPlace::Address(address) => {
            TcpStream::connect_timeout(rt, &SocketAddr::V4(*address), patience)?
        }
        ServerPlace::Folder(folder) => connect_in(rt, alloc, folder, socket)?,
    };
    // A server that hangs would keep its client without end.
    stream.set_read_timeout(Some(patience))?;
    stream.set_write_timeout(Some(patience))?;
    Ok(stream)
}

impl LocalNet for HostRuntime {
    ghost use Rattle.std.specs.Prelude.{⊤};

    // Who is at a place, and what it sends, is not known.
    ghost reaches = { λ _ _ _ _ _. ⊤ };

    fn reach(
        &self,
        alloc: Global,
        place: &ServerPlace<'_>,
        socket: Socket,
        patience: Duration,
        sent: &[u8],
    ) -> io::Result<TcpStream> {
        let mut stream = connect(self, alloc, place, socket, patience)?;
        stream.write_all(sent)?;
        Ok(stream)
    }

    fn stream_of(stream: UnixStream) -> TcpStream {
        TcpStream::from(OwnedFd::from(stream))
    }

    fn bind_local(&self, path: &str) -> io::Result<UnixListener> {
        UnixListener::bind(self, path)
    }

    fn set_accept_timeout(listener: &TcpListener, patience: Duration) -> io::Result<()> {
        limit_accept(listener.as_fd().try_clone_to_owned()?, patience)
    }
}
