//! A server over loopback, in one process without threads, and a server at an endpoint where many
//! calls fail.
ghost use Rattle.std.specs.Prelude.{◌≤◌, length};

use crate::agent::{GET, GOT, SYS_NAME};
use crate::table::table_of;
use snmp_agent::{Config, Endpoint, EndpointFault, Served, Table, serve, serve_at};
use std::net::{Net, UdpSocket};
use std::process::Abort;
use std::time::Duration;

/// Returns a socket at a free port of loopback. Its receives wait for up to a tenth of a second.
fn socket_of(rt: &(impl Net + Abort)) -> UdpSocket {
    let socket = UdpSocket::bind(rt, "127.0.0.1:0").expect(rt, "a socket");
    socket
        .set_read_timeout(Some(Duration::from_millis(100)))
        .expect(rt, "a time-out");
    socket
}

/// Returns the configuration of an agent with community `public`.
fn public() -> Config<'static> {
    Config {
        community: b"public",
        max_size: 1472,
    }
}

/// Returns what was served: replies, dropped datagrams, idle turns and faults.
fn of_counts(replies: u64, dropped: u64, idle: u64, faults: u64) -> Served {
    Served {
        replies,
        dropped,
        idle,
        faults,
    }
}

/// Asserts that `turns` turns serve what `wanted` says.
fn assert_turns(rt: &impl Abort, server: &UdpSocket, table: &Table, turns: u64, wanted: Served) {
    assert!(rt;
        serve(server, table, &public(), turns) == wanted,
        "{wanted:?}"
    );
}

/// Connects the server to the client.
fn connect(rt: &impl Abort, server: &UdpSocket, client: &UdpSocket) {
    let address = client.local_addr().expect(rt, "an address");
    server.connect(address).expect(rt, "a connection");
}

/// Sends `datagram` from the client to the server.
fn send(rt: &impl Abort, client: &UdpSocket, server: &UdpSocket, datagram: &[u8]) {
    let address = server.local_addr().expect(rt, "an address");
    client.send_to(datagram, address).expect(rt, "a send");
}

/// Asserts that the client receives a reply of the server, with this id.
fn assert_reply(rt: &impl Abort, client: &UdpSocket, server: &UdpSocket, id: u8) {
    let mut buffer = [0; 1472];
    let mut reply = GOT;
    reply[17] = id;
    let (size, sender) = client.recv_from(&mut buffer).expect(rt, "a reply");
    let address = server.local_addr().expect(rt, "an address");
    assert!(rt; buffer.get(..size) == Some(reply.as_slice()) && sender == address);
}

#[test]
fn a_request_gets_its_reply(rt: HostRuntime) {
    let table = table_of(&rt, rt.alloc(), SYS_NAME);
    let server = socket_of(&rt);
    let client = socket_of(&rt);
    send(&rt, &client, &server, &GET);
    assert_turns(&rt, &server, &table, 1, of_counts(1, 0, 0, 0));
    assert_reply(&rt, &client, &server, 1);
}

#[test]
fn a_turn_without_a_datagram_is_idle(rt: HostRuntime) {
    let table = table_of(&rt, rt.alloc(), SYS_NAME);
    let server = socket_of(&rt);
    assert_turns(&rt, &server, &table, 2, of_counts(0, 0, 2, 0));
    assert_turns(&rt, &server, &table, 0, Served::default());
}

/// Sends two datagrams from each of two clients. Asserts that each client receives one reply, to
/// its own request.
fn assert_own_replies(
    rt: &impl Abort,
    table: &Table,
    server: &UdpSocket,
    first: &UdpSocket,
    second: &UdpSocket,
) {
    let mut request = GET;
    request[17] = 2;
    send(rt, first, server, &GET);
    send(rt, first, server, b"no message");
    send(rt, second, server, b"");
    send(rt, second, server, &request);
    assert_turns(rt, server, table, 5, of_counts(2, 2, 1, 0));
    assert_reply(rt, first, server, 1);
    assert_reply(rt, second, server, 2);
    assert!(rt; first.recv_from(&mut [0; 1472]).is_err());
}

#[test]
fn each_sender_gets_its_own_reply(rt: HostRuntime) {
    let table = table_of(&rt, rt.alloc(), SYS_NAME);
    let server = socket_of(&rt);
    let first = socket_of(&rt);
    let second = socket_of(&rt);
    assert_own_replies(&rt, &table, &server, &first, &second);
}

/// The reply goes to a port that is closed by then. The next receive of a connected socket reports
/// this as an error, once.
#[test]
fn a_failed_receive_is_a_fault(rt: HostRuntime) {
    let table = table_of(&rt, rt.alloc(), SYS_NAME);
    let server = socket_of(&rt);
    let client = socket_of(&rt);
    send(&rt, &client, &server, &GET);
    connect(&rt, &server, &client);
    drop(client);
    assert_turns(&rt, &server, &table, 3, of_counts(1, 0, 1, 1));
}

/// An endpoint that receives `GET` again and again. Every second receive fails, and every second
/// reply.
#[derive(Drop)]
struct Failing {
    receives: u64,
    replies: u64,
    faults: u64,
}

impl Endpoint for Failing {
    type Peer = ();

    ghost happens = { λ _ _ _. Unit {0} };

    ghost fault_count = { λ endpoint. endpoint.faults };

    fn receive(&mut self, buffer: &mut [u8]) -> Result<Option<(usize, ())>, EndpointFault> {
        self.receives = self.receives.wrapping_add(1);
        if self.receives % 2 == 0 || buffer.len() < 40 {
            self.faults = self.faults.saturating_add(1);
            return Err(EndpointFault);
        }
        buffer[..40].copy_from_slice(&GET);
        Ok(Some((40, ())))
    }

    fn reply(&mut self, _datagram: &[u8], _peer: ()) -> Result<(), EndpointFault> {
        self.replies = self.replies.wrapping_add(1);
        if self.replies % 2 == 0 {
            self.faults = self.faults.saturating_add(1);
            Err(EndpointFault)
        } else {
            Ok(())
        }
    }

    fn faults(&self) -> u64 {
        self.faults
    }
}

#[test]
fn failures_are_counted_and_the_next_turn_follows(rt: HostRuntime) {
    let table = table_of(&rt, rt.alloc(), SYS_NAME);
    let mut endpoint = Failing {
        receives: 0,
        replies: 0,
        faults: 0,
    };
    let served = serve_at(&mut endpoint, &table, &public(), 1000);
    assert!(rt; served == of_counts(250, 0, 0, 750));
    assert!(rt; endpoint.replies == 500 && endpoint.faults() == 750);
}
