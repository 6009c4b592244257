//! The one response of a connection.
ghost use Rattle.std.specs.Prelude.{◌≡◌, ◌≤◌, OnOk, OnErr, Some, IsSome};
ghost use Rattle.http.specs.StatusCode.{reason_phrase};
ghost use Rattle.portal_base.specs.Outside.{Takes, TakesPrefix, Rose};
ghost use Rattle.http_front.specs.Response.{response_bytes, status_line, fields_and_body};

use crate::write::write_four;
use http::StatusCode;
use itoa::Buffer;
use portal_base::outside::{Failed, Link};

const BEFORE_LENGTH: &[u8] =
    b"\r\nContent-Type: application/json;charset=utf-8\r\nContent-Length: ";

const AFTER_LENGTH: &[u8] = b"\r\nConnection: close\r\n\r\n";

// The reason phrase of the status (RFC 9110, section 15).
#[tactic(auto, using(crate::proofs::PhraseLemmas::has_three_digits))]
fn phrase_of(status: u16) -> &'static str
    requires phrase { IsSome (reason_phrase status) }
    ensures { reason_phrase status ≡ Some result.now }
{
    match StatusCode::from_u16(status) {
        Ok(code) => code.canonical_reason().unwrap_or(""),
        Err(_) => "",
    }
}

/// Writes the response of this status with this body, which is JSON. It takes no memory. After a fault the link has
/// taken a prefix of the response.
#[tactic(auto, using(crate::proofs::PieceLemmas::takes_first, crate::proofs::PieceLemmas::takes_second, crate::proofs::PieceLemmas::takes_both))]
pub fn send<K: Link>(link: &mut K, status: u16, body: &[u8]) -> Result<(), Failed>
    requires phrase { IsSome (reason_phrase status) }
    ensures ok { OnOk result (Takes (K.taken link.old) (response_bytes status body.now) (K.taken link.new)) }
    ensures failed { OnErr result
        (TakesPrefix (K.taken link.old) (response_bytes status body.now) (K.taken link.new)) }
    ensures to_come { K.to_come link.new ≡ K.to_come link.old }
    ensures fault { OnErr result (Rose (K.faults link.old) (K.faults link.new)) }
    ensures counts { K.faults link.old ≤ K.faults link.new }
{
    send_status_line(link, status)?;
    send_fields(link, body)?;
    Ok(())
}

// Writes the status line, without its end.
fn send_status_line<K: Link>(link: &mut K, status: u16) -> Result<(), Failed>
    requires phrase { IsSome (reason_phrase status) }
    ensures ok { OnOk result (Takes (K.taken link.old) (status_line status) (K.taken link.new)) }
    ensures failed { OnErr result (TakesPrefix (K.taken link.old) (status_line status) (K.taken link.new)) }
    ensures to_come { K.to_come link.new ≡ K.to_come link.old }
    ensures fault { OnErr result (Rose (K.faults link.old) (K.faults link.new)) }
    ensures counts { K.faults link.old ≤ K.faults link.new }
{
    let mut digits = Buffer::new();
    let code = digits.format(status).as_bytes();
    let phrase = phrase_of(status).as_bytes();
    write_four(link, b"HTTP/1.1 ", code, b" ", phrase)
}

// Writes the fields, the empty line and the body.
fn send_fields<K: Link>(link: &mut K, body: &[u8]) -> Result<(), Failed>
    ensures ok { OnOk result (Takes (K.taken link.old) (fields_and_body body.now) (K.taken link.new)) }
    ensures failed { OnErr result (TakesPrefix (K.taken link.old) (fields_and_body body.now) (K.taken link.new)) }
    ensures to_come { K.to_come link.new ≡ K.to_come link.old }
    ensures fault { OnErr result (Rose (K.faults link.old) (K.faults link.new)) }
    ensures counts { K.faults link.old ≤ K.faults link.new }
{
    let mut digits = Buffer::new();
    let length = digits.format(body.len()).as_bytes();
    write_four(link, BEFORE_LENGTH, length, AFTER_LENGTH, body)
}
