//! The host around a run: the command line, variables of the environment, a TCP listener and a random seed.
ghost use Rattle.std.specs.Prelude.{◌≡◌, ◌⊎◌, false, map, string_bytes, Ok, None, IfErr};
ghost use Rattle.portal_devices.specs.Port.{is_port_number, port_in, port_number};
ghost use Rattle.portal_words.specs.FirstWord.{is_serve};

use portal_base::characters::has_only_digits;
use portal_status::status::Status;
use portal_words::first_word::is_serve;
use std::alloc::Global;
use std::net::TcpListener;
use std::random::RandomSource;
use std::{env, io};

/// The port if the environment names none.
const DEFAULT_PORT: u16 = 5_000;

/// The words after the program's name. The status is `Words` if one isn't UTF-8.
pub fn words(rt: &(impl env::Env + Alloc<A = Global>)) -> Result<Vec<String>, Status>
    ensures fault { IfErr result (λ status. (status ≡ Status.Words) ⊎ (status ≡ Status.OutOfMemory)) }
{
    let mut words = Vec::new(rt.alloc());
    match env::args(rt) {
        Ok(args) => for word in args.skip(1) {
            if words.push(word).is_err() {
                return Err(Status::OutOfMemory);
            }
        },
        Err(error) if error.kind() == io::ErrorKind::OutOfMemory => return Err(Status::OutOfMemory),
        Err(_) => return Err(Status::Words),
    }
    Ok(words)
}

/// The text of a variable of the environment, if it is set and UTF-8.
fn variable(rt: &(impl env::Env + Alloc<A = Global>), name: &str) -> Result<Option<String>, Status>
    ensures fault { IfErr result (λ status. status ≡ Status.OutOfMemory) }
{
    match env::var(rt, name) {
        Ok(value) => Ok(Some(value)),
        Err(env::VarError::OutOfMemory) => Err(Status::OutOfMemory),
        Err(_) => Ok(None),
    }
}

/// Whether the environment asks for real time: `PORTAL_TIME` is `real`.
pub fn is_real_time(rt: &(impl env::Env + Alloc<A = Global>)) -> Result<bool, Status>
    ensures fault { IfErr result (λ status. status ≡ Status.OutOfMemory) }
{
    match variable(rt, "PORTAL_TIME")? {
        Some(value) => Ok(value.as_str() == "real"),
        None => Ok(false),
    }
}

/// Whether the text is 1 to 5 digits.
fn is_port_number(text: &str) -> bool
    ensures { result ≡ is_port_number text.now }
{
    !text.is_empty() && text.len() <= 5 && has_only_digits(text.as_bytes())
}

/// The number that 1 to 5 digits spell.
fn port_number(text: &str) -> Option<u64>
    ensures { result ≡ port_number text.now }
{
    if !is_port_number(text) {
        return None;
    }
    text.parse::<u64>().ok()
}

/// The port (RFC 9293, section 3.1) that a text of 1 to 5 decimal digits names, unless it is 0.
pub fn port_in(text: &str) -> Option<u16>
    ensures { result ≡ port_in text.now }
{
    let number = port_number(text)?;
    if 0 < number && number <= 65_535 {
        Some(number as u16)
    } else {
        None
    }
}

/// The port that `PORTAL_PORT` names, or 5000 if it names none.
fn port(rt: &(impl env::Env + Alloc<A = Global>)) -> Result<u16, Status>
    ensures fault { IfErr result (λ status. status ≡ Status.OutOfMemory) }
{
    match variable(rt, "PORTAL_PORT")? {
        Some(value) => Ok(port_in(value.as_str()).unwrap_or(DEFAULT_PORT)),
        None => Ok(DEFAULT_PORT),
    }
}

/// A listener on 127.0.0.1, if the command is `serve` and the port is free. Otherwise none.
pub fn listener(rt: &HostRuntime, words: &[String]) -> Result<Option<TcpListener>, Status>
    ensures unasked { is_serve (map string_bytes words.now) ≡ false → result ≡ Ok None }
    ensures fault { IfErr result (λ status. status ≡ Status.OutOfMemory) }
{
    if !is_serve(words) {
        return Ok(None);
    }
    let port = port(rt)?;
    Ok(listener_at(rt, port))
}

/// A listener on 127.0.0.1 at this port, if the port is free.
pub(crate) fn listener_at(rt: &HostRuntime, port: u16) -> Option<TcpListener> {
    TcpListener::bind(rt, ("127.0.0.1", port)).ok()
}

/// A seed of 32 bytes from the host's random source, or none if that fails.
pub fn random_seed(rt: &impl RandomSource) -> Option<[u8; 32]> {
    let mut seed = [0; 32];
    rt.fill_bytes(&mut seed).ok()?;
    Some(seed)
}
