//! Connections over TCP on this machine. Their bytes aren't observable.
ghost use Rattle.std.specs.Prelude.{◌≡◌, ◌≤◌, false, length, IfOk};

use portal_base::outside::{Failed, Link, Listener};
use std::io::{Read, Write};
use std::marker::Model;
use std::net::{Shutdown, TcpListener, TcpStream};
use std::time::{Duration, Instant};
use std::{io, thread};

/// The timeout of one read or write, in seconds.
const TRANSFER_TIMEOUT: u64 = 10;

/// The timeout of a request in seconds after its connection was accepted, and that of its answer after its first write.
const LINK_TIMEOUT: u64 = 60;

/// The timeout of one read from a peer whose reply was written, in milliseconds.
const CLOSING_TIMEOUT: u64 = 200;

/// The most pieces that are read from such a peer.
const CLOSING_PIECES: usize = 64;

/// The most passing errors of a listener in a row after which it goes on.
const MAX_PASSING: usize = 1_000;

/// The wait after an error of a listener that lacks a descriptor or memory, in milliseconds.
const SHORTAGE_WAIT: u64 = 50;

/// The numbers of these errors on Linux: ENOMEM, ENFILE, EMFILE and ENOBUFS.
const SHORTAGES: [i32; 4] = [12, 23, 24, 105];

/// A connection. Every error of it is a fault, and so is each timeout: of ten seconds for one read or write, of a minute
/// for the request, and of another minute for its answer. In contracts a link is its count of faults, which stays at the
/// last number of a `u64`.
#[derive(Drop)]
pub struct TcpLink<R> {
    host: R,
    accepted: Instant,
    answered: Option<Instant>,
    stream: TcpStream,
    faults: u64,
}

impl<R> Model for TcpLink<R> {
    ghost use Rattle.std.specs.Prelude.{ℕ};

    ghost Value = { ℕ };

    ghost view = { λ l. l.faults };
}

impl<R: std::time::Clock + Drop> TcpLink<R> {
    /// A link over a connection that was just made.
    pub(crate) fn from_stream(host: R, stream: TcpStream) -> io::Result<TcpLink<R>> {
        let patience = Some(Duration::from_secs(TRANSFER_TIMEOUT));
        stream.set_read_timeout(patience)?;
        stream.set_write_timeout(patience)?;
        stream.set_nodelay(true)?;
        let accepted = Instant::now(&host)?;
        Ok(TcpLink {
            host,
            accepted,
            answered: None,
            stream,
            faults: 0,
        })
    }

    /// Fails after the timeout since that time.
    fn check_deadline(&self, start: Instant) -> io::Result<()> {
        if start.elapsed(&self.host)? < Duration::from_secs(LINK_TIMEOUT) {
            Ok(())
        } else {
            Err(io::Error::from(io::ErrorKind::TimedOut))
        }
    }

    /// When the first piece of the answer was written: now, if none was.
    fn answer_start(&mut self) -> io::Result<Instant>
        ensures { self.new ≡ self.old }
    {
        if let Some(start) = self.answered {
            return Ok(start);
        }
        let start = Instant::now(&self.host)?;
        self.answered = Some(start);
        Ok(start)
    }

    fn read_in_time(&self, into: &mut [u8]) -> io::Result<usize>
        ensures { IfOk result (λ count. count ≤ length into.new) }
    {
        self.check_deadline(self.accepted)?;
        (&self.stream).read(into)
    }

    fn write_in_time(&mut self, piece: &[u8]) -> io::Result<usize>
        ensures count { IfOk result (λ count. count ≤ length piece.now) }
        ensures faults { self.new ≡ self.old }
    {
        let start = self.answer_start()?;
        self.check_deadline(start)?;
        (&self.stream).write(piece)
    }

    /// Closes the connection after the peer had time to read the reply. What the peer still sends is read, up to a
    /// bound: TCP resets a connection that is closed with unread bytes, and the reply can be lost with it.
    fn close(self) -> io::Result<()> {
        let TcpLink { mut stream, .. } = self;
        stream.shutdown(Shutdown::Write)?;
        stream.set_read_timeout(Some(Duration::from_millis(CLOSING_TIMEOUT)))?;
        let mut piece = [0; 8_192];
        for _ in 0..CLOSING_PIECES {
            if stream.read(&mut piece)? == 0 {
                return Ok(());
            }
        }
        Ok(())
    }
}

impl<R: std::time::Clock + Drop> Link for TcpLink<R> {
    ghost use Rattle.std.specs.Prelude.{None};

    ghost to_come = { λ _. None };

    ghost taken = { λ _. None };

    ghost faults = { λ count. count };

    fn read(&mut self, into: &mut [u8]) -> Result<usize, Failed> {
        match self.read_in_time(into) {
            Ok(count) => Ok(count),
            Err(_) => {
                self.faults = self.faults.saturating_add(1);
                Err(Failed)
            }
        }
    }

    fn write(&mut self, piece: &[u8]) -> Result<usize, Failed> {
        match self.write_in_time(piece) {
            Ok(count) if count > 0 || piece.is_empty() => Ok(count),
            _ => {
                self.faults = self.faults.saturating_add(1);
                Err(Failed)
            }
        }
    }
}

/// Accepts the connections of a TCP listener. It skips an aborted connection, waits a little where the host lacks a
/// descriptor or memory, and fails after 1,000 such errors in a row. Without a listener each call of `accept` is a fault. A door has no end,
/// and its links aren't observable. In contracts a door is whether a link is out, the count of links that were taken
/// back, and the count of faults.
#[derive(Drop)]
pub struct TcpDoor<R> {
    host: R,
    listener: Option<TcpListener>,
    is_out: bool,
    count: u64,
    faults: u64,
}

impl<R> Model for TcpDoor<R> {
    ghost use Rattle.portal_devices.specs.Door.{Door};

    ghost Value = { Door };

    ghost view = { λ d. record { is_out = d.is_out; count = d.count; faults = d.faults } };
}

impl<R: std::time::Clock + Copy + Drop> TcpDoor<R> {
    /// A door over the listener, with no link out.
    pub fn new(host: R, listener: Option<TcpListener>) -> TcpDoor<R>
        ensures { result.is_out ≡ false }
    {
        TcpDoor {
            host,
            listener,
            is_out: false,
            count: 0,
            faults: 0,
        }
    }

    /// The next connection as a link, or none if the listener fails.
    fn next_link(&self) -> Option<TcpLink<R>> {
        let listener = self.listener.as_ref()?;
        for _ in 0..MAX_PASSING {
            match listener.accept() {
                Ok((stream, _peer)) => if let Ok(link) = TcpLink::from_stream(self.host, stream) {
                    return Some(link);
                },
                Err(error) if is_aborted(&error) => {}
                Err(error) if is_shortage(&error) => {
                    thread::sleep(&self.host, Duration::from_millis(SHORTAGE_WAIT));
                }
                Err(_) => return None,
            }
        }
        None
    }
}

/// Whether the host lacks a descriptor or memory for a connection, which it may have again a little later.
fn is_shortage(error: &io::Error) -> bool {
    match error.raw_os_error() {
        Some(code) => SHORTAGES.contains(&code),
        None => error.kind() == io::ErrorKind::OutOfMemory,
    }
}

/// Whether the error is of one connection, and not of the listener.
fn is_aborted(error: &io::Error) -> bool {
    let kind = error.kind();
    kind == io::ErrorKind::ConnectionAborted
        || kind == io::ErrorKind::ConnectionReset
        || kind == io::ErrorKind::Interrupted
}

impl<R: std::time::Clock + Copy + Drop> Listener for TcpDoor<R> {
    ghost use Rattle.std.specs.Prelude.{None, false};

    type Peer = TcpLink<R>;

    ghost is_out = { λ d. d.is_out };

    ghost is_at_end = { λ _. false };

    ghost count = { λ d. d.count };

    ghost to_come = { λ _. None };

    ghost taken_back = { λ _. None };

    ghost faults = { λ d. d.faults };

    fn accept(&mut self) -> Result<Option<TcpLink<R>>, Failed> {
        match self.next_link() {
            Some(link) => {
                self.is_out = true;
                Ok(Some(link))
            }
            None => {
                self.faults = self.faults.saturating_add(1);
                Err(Failed)
            }
        }
    }

    fn finish(&mut self, peer: TcpLink<R>) {
        let _closed = peer.close();
        self.is_out = false;
        self.count = self.count.saturating_add(1);
    }

    ghost ends = { λ _. tt };
}
