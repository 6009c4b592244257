//! A connection over TCP on this machine.
ghost use Rattle.std.specs.Prelude.{◌≡◌, false};

use crate::environment::listener_at;
use crate::net::TcpDoor;
use portal_base::outside::{Failed, Link, Listener};
use std::io::{self, Read, Write};
use std::net::{IpAddr, Ipv4Addr, TcpListener, TcpStream};
use std::test::Fail;

/// Whether the link gives the bytes of the peer, and takes the answer.
fn is_answered<L: Link>(link: &mut L) -> bool {
    let mut piece = [0; 10];
    link.read(&mut piece) == Ok(3)
        && &piece[..3] == b"ask".as_slice()
        && link.write(b"told") == Ok(4)
}

/// Whether the door gives a link that is answered. The link is given back.
fn is_served<L: Listener>(door: &mut L) -> bool
    requires { L.is_out door.old ≡ false }
{
    match door.accept() {
        Ok(Some(mut link)) => {
            let answered = is_answered(&mut link);
            door.finish(link);
            answered
        }
        _ => false,
    }
}

/// Whether the answer comes, and then the end.
fn receives_answer(peer: &mut TcpStream) -> io::Result<bool> {
    let mut piece = [0; 10];
    let count = peer.read(&mut piece)?;
    Ok(count == 4 && &piece[..4] == b"told".as_slice() && peer.read(&mut piece)? == 0)
}

#[test]
fn a_connection_is_a_link(rt: HostRuntime) -> Result<(), Fail> {
    let listener = TcpListener::bind(&rt, ("127.0.0.1", 0))?;
    let mut peer = TcpStream::connect(&rt, listener.local_addr()?)?;
    assert_eq!(rt; peer.write(b"ask")?, 3);
    let mut door = TcpDoor::new(&rt, Some(listener));
    assert!(rt; is_served(&mut door));
    assert!(rt; receives_answer(&mut peer)?);
    Ok(())
}

#[test]
fn the_listener_is_bound_to_this_machine(rt: HostRuntime) -> Result<(), Fail> {
    let free = TcpListener::bind(&rt, ("127.0.0.1", 0))?.local_addr()?;
    match listener_at(&rt, free.port()) {
        Some(listener) => {
            assert_eq!(rt; listener.local_addr()?, free);
            assert_eq!(rt; free.ip(), IpAddr::V4(Ipv4Addr::LOCALHOST));
        }
        None => assert!(rt; false, "the port is free"),
    }
    Ok(())
}

#[test]
fn a_door_without_a_listener_fails(rt: HostRuntime) {
    let mut door = TcpDoor::new(&rt, None);
    assert!(rt; matches!(door.accept(), Err(Failed)));
}
