//! Locations that are this machine's.
ghost use Rattle.std.specs.Prelude.{◌≡◌, ◌++◌, IfOk, option_map};
ghost use Rattle.http_front.specs.Location.{loopback_endpoint, is_loopback, is_own_host, host_of, query_part};
ghost use Rattle.http_front.specs.Location.{endpoint_of_url, endpoint_of_tuple};

use portal_base::text::Text;
use std::alloc::{AllocError, Global};
use url::{ParseError, Url};

const LONGEST: usize = 65536;

/// The host, the port and the request target of a location (URL Standard, section 4). It is none unless the location
/// has at most 65,536 bytes and is an `http` URL whose host is 127.0.0.1 or localhost.
pub fn loopback(alloc: Global, location: &str) -> Result<Option<(Text, u16, Text)>, AllocError>
    ensures { IfOk result (λ endpoint. option_map endpoint_of_tuple endpoint ≡ loopback_endpoint location.now) }
{
    if location.len() > LONGEST {
        return Ok(None);
    }
    match Url::parse(alloc, location) {
        Ok(url) => endpoint_of(alloc, &url),
        Err(ParseError::OutOfMemory | ParseError::Overflow) => Err(AllocError),
        Err(_) => Ok(None),
    }
}

// The host as text, or the empty text where there is none.
fn host_of(url: &Url) -> &str
    ensures { result.now ≡ host_of url.now }
{
    url.host_str().unwrap_or("")
}

fn is_own_host(host: &str) -> bool
    ensures { result ≡ is_own_host host.now }
{
    host == "127.0.0.1" || host == "localhost"
}

fn is_loopback(url: &Url) -> bool
    ensures { result ≡ is_loopback url.now }
{
    url.scheme() == "http" && is_own_host(host_of(url))
}

// The path, with `?` and the query where there is one.
fn target_of(alloc: Global, url: &Url) -> Result<Text, AllocError>
    ensures { IfOk result (λ target. target ≡ url.now.path ++ query_part url.now.query) }
{
    let mut target = String::from_str(alloc, url.path())?;
    if let Some(query) = url.query() {
        target.push_str("?")?;
        target.push_str(query)?;
    }
    Ok(Text::from(target))
}

fn endpoint_of(alloc: Global, url: &Url) -> Result<Option<(Text, u16, Text)>, AllocError>
    ensures { IfOk result (λ endpoint. option_map endpoint_of_tuple endpoint ≡ endpoint_of_url url.now) }
{
    if !is_loopback(url) {
        return Ok(None);
    }
    let host = Text::from_str(alloc, host_of(url))?;
    let port = url.port().unwrap_or(80);
    let target = target_of(alloc, url)?;
    Ok(Some((host, port, target)))
}
