//! Where a server listens: a TCP port, or a Unix socket.

use crate::local::{LocalNet, set_local_accept_timeout};
use std::fs::Files;
use std::io::{self, ErrorKind, Read, Write};
use std::net::{
    Ipv4Addr, Net, OpenListener, OpenStream, SocketAddr, SocketAddrV4, TcpListener, TcpStream,
};
use std::os::unix::fs::{FileTypeExt, MetadataExt};
use std::os::unix::net::{UnixListener, UnixStream};
use std::time::Duration;

/// For how many milliseconds an `accept` waits if nobody comes.
const PATIENCE: u64 = 100;

/// A network on which a server listens.
pub trait ServerNet: LocalNet {
    /// A connection that a listener accepted.
    type Accepted: Read + Write + OpenStream + Drop + Send;

    /// A listener. An `accept` returns after 100 ms with `WouldBlock` if nobody comes.
    type ServerListener: OpenListener<Stream = Self::Accepted> + Drop + Sync;

    /// Listens at a TCP port; port 0 is any free one.
    fn at_address(&self, place: SocketAddrV4) -> io::Result<Self::ServerListener>;

    /// Makes a socket file, and listens there. A socket file at which nobody listens goes before.
    ///
    /// # Errors
    ///
    /// The system's. `AddrInUse` if somebody listens there, `AlreadyExists` if the file is no socket: it stays as it is.
    fn at_path(&self, path: &str) -> io::Result<Self::ServerListener>;

    /// Returns the number of the inode of a file, by which it is known from one that is put in its place. `None` if there is
    /// none.
    fn inode_at(&self, path: &str) -> Option<u64>;

    /// Removes a socket file, unless it has another inode. No other file is removed.
    fn remove_socket(&self, path: &str, inode: Option<u64>);
}

/// A listener at a TCP port or at a Unix socket.
#[derive(Drop)]
pub enum ServerListener {
    Tcp(TcpListener),
    Local(UnixListener),
}

/// Returns the number of the inode of a file. `None` if there is none.
fn inode_of<F: Files>(files: &F, path: &str) -> Option<u64> {
    match files.symlink_metadata(path) {
        Ok(found) => Some(found.ino()),
        Err(_) => None,
    }
}

/// Checks whether a file is a socket.
fn is_socket<F: Files>(files: &F, path: &str) -> io::Result<bool> {
    Ok(files.symlink_metadata(path)?.file_type().is_socket())
}

/// Checks that a file is a socket at which nobody listens.
fn check_left_over<N: LocalNet, F: Files>(rt: &N, files: &F, path: &str) -> io::Result<()> {
    if !is_socket(files, path)? {
        return Err(io::Error::from(ErrorKind::AlreadyExists));
    }
    match UnixStream::connect(rt, path) {
        Ok(_) => Err(io::Error::from(ErrorKind::AddrInUse)),
        Err(error) if error.kind() == ErrorKind::ConnectionRefused => Ok(()),
        Err(error) => Err(error),
    }
}

/// Makes a socket file, in place of one that an earlier server left.
fn bind_at<N: LocalNet, F: Files>(rt: &N, files: &F, path: &str) -> io::Result<UnixListener> {
    match rt.bind_local(path) {
        Err(error) if error.kind() == ErrorKind::AddrInUse => {
            let inode = inode_of(files, path);
            check_left_over(rt, files, path)?;
            if inode_of(files, path) != inode {
                return Err(error);
            }
            files.remove_file(path)?;
            rt.bind_local(path)
        }
        bound => bound,
    }
}

impl ServerNet for HostRuntime {
    type Accepted = TcpStream;

    type ServerListener = ServerListener;

    fn at_address(&self, place: SocketAddrV4) -> io::Result<ServerListener> {
        let listener = self.bind(SocketAddr::V4(place))?;
        HostRuntime::set_accept_timeout(&listener, Duration::from_millis(PATIENCE))?;
        Ok(ServerListener::Tcp(listener))
    }

    fn at_path(&self, path: &str) -> io::Result<ServerListener> {
        let listener = bind_at(self, self, path)?;
        set_local_accept_timeout(&listener, Duration::from_millis(PATIENCE))?;
        Ok(ServerListener::Local(listener))
    }

    fn inode_at(&self, path: &str) -> Option<u64> {
        inode_of(self, path)
    }

    fn remove_socket(&self, path: &str, inode: Option<u64>) {
        if matches!(is_socket(self, path), Ok(true)) && inode_of(self, path) == inode {
            let _removed = self.remove_file(path).is_ok();
        }
    }
}

/// Returns the address that a client at a Unix socket is given.
fn local_client() -> SocketAddr {
    SocketAddr::V4(SocketAddrV4::new(Ipv4Addr::UNSPECIFIED, 0))
}

/// Checks whether a client is at a Unix socket.
pub fn is_local(client: &SocketAddr) -> bool {
    *client == local_client()
}

impl OpenListener for ServerListener {
    type Stream = TcpStream;

    fn accept(&self) -> io::Result<(TcpStream, SocketAddr)> {
        let (stream, client) = match self {
            ServerListener::Tcp(listener) => listener.accept()?,
            ServerListener::Local(listener) => {
                let (stream, _) = listener.accept()?;
                (HostRuntime::stream_of(stream), local_client())
            }
        };
        // Linux passes the listener's time limit on to what it accepts.
        if stream.set_read_timeout(None).is_err() {
            return Err(io::Error::from(ErrorKind::Interrupted));
        }
        Ok((stream, client))
    }

    fn local_addr(&self) -> io::Result<SocketAddr> {
        match self {
            ServerListener::Tcp(listener) => listener.local_addr(),
            ServerListener::Local(_) => Ok(local_client()),
        }
    }

    fn set_nonblocking(&self, nonblocking: bool) -> io::Result<()> {
        match self {
            ServerListener::Tcp(listener) => listener.set_nonblocking(nonblocking),
            ServerListener::Local(listener) => listener.set_nonblocking(nonblocking),
        }
    }
}
