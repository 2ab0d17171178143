//! Endpoints: where an agent receives datagrams and sends its replies.
ghost use Rattle.std.specs.Prelude.{◌≡◌, ◌≤◌, IfOk, IfSome, OnErr, OnOk, length};
ghost use Rattle.snmp_io.specs.Count.{HasIncreased};

use std::io::ErrorKind;
use std::net::{SocketAddr, UdpSocket};

/// A receive or a send failed.
#[derive(Clone, Copy, Debug, PartialEq, Eq, thiserror::Error)]
#[error("the endpoint failed")]
pub struct EndpointFault;

/// Where an agent receives datagrams and sends its replies.
pub trait Endpoint {
    ghost use Rattle.std.specs.Prelude.{ℕ};
    ghost use Rattle.snmp_agent.specs.Event.{Event, event_of_receive, event_of_reply};

    /// The sender of a datagram, to whom the reply goes.
    type Peer: Copy;

    /// `happens old event new`: in state `old`, `event` can happen and leave the endpoint in state
    /// `new`. For a socket it always holds, so it says nothing.
    ghost happens: { Self → Event Self.Peer → Self → Type 0 };

    /// The number of receives and replies that failed, at most 18446744073709551615.
    ghost fault_count: { Self → ℕ };

    /// Receives a datagram into the start of `buffer`, and returns its length and its sender.
    /// Returns `None` if none arrives in time. An error raises the fault count, unless it is
    /// at its maximum.
    ///
    /// A buffer of 65507 octets has room for any UDP datagram over IPv4.
    fn receive(&mut self, buffer: &mut [u8]) -> Result<Option<(usize, Self::Peer)>, EndpointFault>
        ensures bound { IfOk result (λ received. IfSome received (λ r. r.0 ≤ length buffer.new)) }
        // A buffer of fewer than 65507 octets may contain only the start of the datagram.
        ensures happens { 65507 ≤ length buffer.old
            → happens self.old (event_of_receive result buffer.new) self.new }
        ensures count { OnOk result (fault_count self.new ≡ fault_count self.old) }
        ensures fault { OnErr result (HasIncreased (fault_count self.old) (fault_count self.new)) };

    /// Sends a reply to `peer`. An error raises the fault count, unless it is at its maximum.
    fn reply(&mut self, datagram: &[u8], peer: Self::Peer) -> Result<(), EndpointFault>
        ensures happens { happens self.old (event_of_reply result peer datagram.now) self.new }
        ensures count { OnOk result (fault_count self.new ≡ fault_count self.old) }
        ensures fault { OnErr result (HasIncreased (fault_count self.old) (fault_count self.new)) };

    /// Returns the number of receives and replies that failed, at most 18446744073709551615.
    fn faults(&self) -> u64
        ensures { result ≡ fault_count self.now };
}

/// A UDP socket as an endpoint.
#[derive(Drop)]
pub struct SocketEndpoint<'a> {
    socket: &'a UdpSocket,
    faults: u64,
}

impl<'a> SocketEndpoint<'a> {
    ghost use Rattle.snmp_io.specs.Count.{HasIncreased};

    /// Returns the endpoint of a socket, with a fault count of 0.
    pub fn new(socket: &'a UdpSocket) -> SocketEndpoint<'a> {
        SocketEndpoint { socket, faults: 0 }
    }

    /// Counts a fault, and returns it.
    fn fault(&mut self) -> EndpointFault
        ensures { HasIncreased self.old.faults self.new.faults }
    {
        self.faults = self.faults.saturating_add(1);
        EndpointFault
    }
}

impl<'a> Endpoint for SocketEndpoint<'a> {
    type Peer = SocketAddr;

    ghost happens = { λ _ _ _. Unit {0} };

    ghost fault_count = { λ endpoint. endpoint.faults };

    fn receive(&mut self, buffer: &mut [u8]) -> Result<Option<(usize, SocketAddr)>, EndpointFault> {
        match self.socket.recv_from(buffer) {
            Ok(came) => Ok(Some(came)),
            Err(error) => match error.kind() {
                ErrorKind::WouldBlock | ErrorKind::TimedOut => Ok(None),
                _ => Err(self.fault()),
            },
        }
    }

    fn reply(&mut self, datagram: &[u8], peer: SocketAddr) -> Result<(), EndpointFault> {
        match self.socket.send_to(datagram, peer) {
            Ok(size) if size == datagram.len() => Ok(()),
            _ => Err(self.fault()),
        }
    }

    fn faults(&self) -> u64 {
        self.faults
    }
}
