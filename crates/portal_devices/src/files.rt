//! Files of the host, and what its servers give.
ghost use Rattle.std.specs.Prelude.{◌≡◌, ◌≢◌, ◌≤◌, ◌==◌, ◌⊎◌, length, position, true, None, Err, IfOk, IsErrOf};
ghost use Rattle.std.specs.List.{list_all};
ghost use Rattle.portal_base.specs.Outside.{Rose};
ghost use Rattle.http_front.specs.Location.{loopback_endpoint};
ghost use Rattle.portal_devices.specs.Location.{begins_with_letter, has_scheme, is_elsewhere, is_scheme, is_scheme_byte};

use crate::net::TcpLink;
use http_front::fetch::get_over;
use http_front::loopback::loopback;
use portal_base::copy::TryClone;
use portal_base::outside::{FetchFault, Fetcher};
use portal_base::text::Text;
use std::alloc::{AllocError, Global};
use std::io::Read;
use std::marker::Model;
use std::net::{Ipv4Addr, Net, TcpStream};
use std::rt::Files;
use std::time::Clock;
use std::{fs, io};

/// Fetches the host's files, and from servers on this machine. A location without a scheme (RFC 3986, section 3.1) is a path,
/// relative to the current folder. A file that doesn't exist is `Missing`. A location of another kind than a regular file, as a
/// folder, a FIFO or a device, is a fault. An `http` location whose host is 127.0.0.1 or localhost is asked for over TCP, and its
/// answer is `Missing` where its status isn't 200. Any other location with a scheme is `Missing`. Every other error of the host
/// but out of memory is a fault, and so is a connection that fails or is too slow. In contracts a fetcher is its count of faults,
/// which stays at the last number of a `u64`. What it holds isn't observable.
#[derive(Drop)]
pub struct HostFetcher<R> {
    host: R,
    faults: u64,
}

impl<R> Model for HostFetcher<R> {
    ghost use Rattle.std.specs.Prelude.{ℕ};

    ghost Value = { ℕ };

    ghost view = { λ f. f.faults };
}

impl<R> HostFetcher<R> {
    pub fn new(host: R) -> HostFetcher<R>
        ensures { result ≡ 0 }
    {
        HostFetcher { host, faults: 0 }
    }
}

fn is_scheme_byte(byte: u8) -> bool
    ensures { result ≡ is_scheme_byte byte }
{
    byte.is_ascii_alphanumeric() || byte == b'+' || byte == b'-' || byte == b'.'
}

fn has_only_scheme_bytes(bytes: &[u8]) -> bool
    ensures { result ≡ list_all is_scheme_byte bytes.now }
{
    bytes.iter().all(|byte| is_scheme_byte(*byte))
}

fn begins_with_letter(bytes: &[u8]) -> bool
    ensures { result ≡ begins_with_letter bytes.now }
{
    match bytes.first() {
        Some(first) => first.is_ascii_alphabetic(),
        None => false,
    }
}

/// Whether the bytes are a scheme (RFC 3986, section 3.1).
fn is_scheme(bytes: &[u8]) -> bool
    ensures { result ≡ is_scheme bytes.now }
{
    begins_with_letter(bytes) && has_only_scheme_bytes(bytes)
}

/// The position of the first colon.
fn find_colon(bytes: &[u8]) -> Option<usize>
    ensures { result ≡ position (λ b. b == 58) bytes.now }
{
    bytes.iter().position(|byte| *byte == b':')
}

/// Whether the location begins with a scheme and a colon.
fn has_scheme(location: &str) -> bool
    ensures { result ≡ has_scheme location.now }
{
    let bytes = location.as_bytes();
    match find_colon(bytes) {
        Some(colon) => is_scheme(&bytes[..colon]),
        None => false,
    }
}

/// The fetch fault for an error of the host.
fn fault_of(error: &io::Error) -> FetchFault {
    let kind = error.kind();
    if kind == io::ErrorKind::NotFound || kind == io::ErrorKind::NotADirectory {
        FetchFault::Missing
    } else if kind == io::ErrorKind::OutOfMemory {
        FetchFault::OutOfMemory
    } else {
        FetchFault::Failed
    }
}

/// Whether a regular file is at the location. A read of another kind, such as a FIFO or a device, may wait for ever.
fn is_regular<R: Files>(host: &R, location: &str) -> Result<bool, FetchFault> {
    match fs::metadata(host, location) {
        Ok(metadata) => Ok(metadata.is_file()),
        Err(error) => Err(fault_of(&error)),
    }
}

/// The bytes of a regular file, if they are at most `limit`.
fn read_file<R: Files>(
    alloc: Global,
    host: &R,
    location: &str,
    limit: usize,
) -> Result<Vec<u8>, FetchFault>
    ensures within { IfOk result (λ bytes. length bytes.items ≤ limit) }
{
    if !is_regular(host, location)? {
        return Err(FetchFault::Failed);
    }
    let file = match fs::open(host, location) {
        Ok(file) => file,
        Err(error) => return Err(fault_of(&error)),
    };
    let mut bytes = Vec::new(alloc);
    let most = (limit as u64).saturating_add(1);
    if let Err(error) = file.take(most).read_to_end(&mut bytes) {
        return Err(fault_of(&error));
    }
    if bytes.len() > limit {
        return Err(FetchFault::TooLong);
    }
    Ok(bytes)
}

/// The `Host` field of a request (RFC 9110, section 7.2), which has no port where it is 80.
fn host_field(alloc: Global, host: &Text, port: u16) -> Result<Text, AllocError> {
    if port == 80 {
        return host.try_clone(alloc);
    }
    let string = format!(in alloc; "{}:{port}", host.as_str())?;
    Ok(Text::from(string))
}

/// The body of what a server on this machine answers, if it is at most `limit` bytes.
fn get<R: Net<Stream = TcpStream> + Clock + Copy + Drop>(
    alloc: Global,
    host: R,
    endpoint: (Text, u16, Text),
    limit: usize,
) -> Result<Vec<u8>, FetchFault>
    ensures within { IfOk result (λ bytes. length bytes.items ≤ limit) }
{
    let (name, port, target) = endpoint;
    let Ok(field) = host_field(alloc, &name, port) else {
        return Err(FetchFault::OutOfMemory);
    };
    let Ok(stream) = TcpStream::connect(&host, (Ipv4Addr::LOCALHOST, port)) else {
        return Err(FetchFault::Failed);
    };
    match TcpLink::from_stream(host, stream) {
        Ok(mut link) => get_over(alloc, &mut link, field.as_str(), target.as_str(), limit),
        Err(_) => Err(FetchFault::Failed),
    }
}

/// What is at a location with a scheme. Only servers on this machine are asked.
fn get_here<R: Net<Stream = TcpStream> + Clock + Copy + Drop>(
    alloc: Global,
    host: R,
    location: &str,
    limit: usize,
) -> Result<Vec<u8>, FetchFault>
    ensures within { IfOk result (λ bytes. length bytes.items ≤ limit) }
    ensures elsewhere { loopback_endpoint location.now ≡ None →
        (result ≡ Err FetchFault.Missing) ⊎ (result ≡ Err FetchFault.OutOfMemory) }
{
    match loopback(alloc, location) {
        Ok(Some(endpoint)) => get(alloc, host, endpoint, limit),
        Ok(None) => Err(FetchFault::Missing),
        Err(AllocError) => Err(FetchFault::OutOfMemory),
    }
}

/// The bytes at a location, if they are at most `limit`.
fn bytes_at<R: Files + Net<Stream = TcpStream> + Clock + Copy + Drop>(
    alloc: Global,
    host: R,
    location: &str,
    limit: usize,
) -> Result<Vec<u8>, FetchFault>
    ensures within { IfOk result (λ bytes. length bytes.items ≤ limit) }
    ensures elsewhere { is_elsewhere location.now ≡ true →
        (result ≡ Err FetchFault.Missing) ⊎ (result ≡ Err FetchFault.OutOfMemory) }
{
    if has_scheme(location) {
        get_here(alloc, host, location, limit)
    } else {
        read_file(alloc, &host, location, limit)
    }
}

impl<R: Files + Net<Stream = TcpStream> + Clock + Copy + Drop> Fetcher for HostFetcher<R> {
    ghost use Rattle.std.specs.Prelude.{None};

    ghost held = { λ _. None };

    ghost faults = { λ count. count };

    fn fetch(&mut self, alloc: Global, location: &str, limit: usize) -> Result<Vec<u8>, FetchFault>
        ensures within { IfOk result (λ bytes. length bytes.items ≤ limit) }
        ensures failed { IsErrOf result FetchFault.Failed → Rose self.old self.new }
        ensures counts { self.old ≤ self.new }
        ensures elsewhere { is_elsewhere location.now ≡ true →
            (result ≡ Err FetchFault.Missing) ⊎ (result ≡ Err FetchFault.OutOfMemory) }
        ensures quiet { result ≢ Err FetchFault.Failed → self.new ≡ self.old }
    {
        match bytes_at(alloc, self.host, location, limit) {
            Err(FetchFault::Failed) => {
                self.faults = self.faults.saturating_add(1);
                Err(FetchFault::Failed)
            }
            fetched => fetched,
        }
    }
}
