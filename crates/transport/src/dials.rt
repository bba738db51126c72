//! Connections to sockets.
use std::io;
use std::io::{Read, Write};
use std::net::{Net, OpenStream, SocketAddr, TcpStream};
use std::time::Duration;

/// A way to connect to a socket. Each network is one; a test may have one of its own, whose streams say where they lead.
pub trait Dial {
    ghost use Rattle.std.specs.Prelude.{IfOk, Option};
    ghost use Rattle.std.specs.declared.net.socket_addr.SocketAddr.{SocketAddr};
    ghost use Rattle.std.specs.declared.time.Duration.{Duration};
    ghost use Rattle.transport.specs.Sockets.{connection_in};

    /// A connection.
    type Stream: Read + Write + OpenStream + Drop;

    /// Whether a stream leads to a socket. Where a real stream leads is unknown to contracts, so a network says it of each.
    ghost leads: { SocketAddr → Self.Stream → Type 0 };

    /// One call of a network: a socket, a limit, the connection if there is one, and the state of the network before and
    /// after. A network can say by it how often it was called; a real one says that it is unchanged.
    ghost dialled: { SocketAddr → Duration → Option Self.Stream → Self → Self → Type 0 };

    /// Connects to a socket within a limit.
    ///
    /// # Errors
    ///
    /// - The error of the network. There is one if the limit is 0.
    fn dial(&mut self, to: &SocketAddr, limit: Duration) -> io::Result<Self::Stream>
        ensures led { IfOk result (leads to.now) }
        ensures dialled { dialled to.now limit (connection_in result) self.old self.new };
}

impl<N: Net> Dial for N {
    ghost use Rattle.std.specs.Prelude.{◌≡◌};

    type Stream = N::Stream;

    ghost leads = { λ _ _. Unit {0} };

    ghost dialled = { λ _ _ _ old new. new ≡ old };

    fn dial(&mut self, to: &SocketAddr, limit: Duration) -> io::Result<N::Stream> {
        TcpStream::connect_timeout(&*self, to, limit)
    }
}
