//! A link to an agent over UDP (RFC 3417, section 3).
ghost use Rattle.std.specs.Prelude.{◌≡◌, ◌<◌, IfSome, find, true};
ghost use Rattle.std.specs.declared.net.ip_addr.IpAddr.{IpAddr};
ghost use Rattle.std.specs.{Net.Grammar.IsIpText, Net.Addr.is_ipv4, Net.ToAddrs.host_addrs};
ghost use Rattle.std.specs.Net.Socket.{IsPlainSocket, socket_ip};
ghost use Rattle.snmp_io.specs.Count.{HasIncreased};

use snmp_walk::{Link, LinkFault};
use std::array;
use std::io::ErrorKind;
use std::iter::Take;
use std::net::{Net, SocketAddr, ToSocketAddrs, UdpSocket};
use std::time::Duration;

/// A link to the agent at a UDP port of a host.
///
/// If a datagram arrives from another sender, or a signal interrupts a receive, then the receive
/// returns an empty datagram, which isn't a reply to any request. If the host is down or the port
/// is closed, no error says so: nothing is received, as if the datagram had been lost.
///
/// Contracts say which address is used if the host is written as an IPv4 address, and that each
/// fault is counted. They say nothing of the socket: whether a datagram that was sent arrives,
/// what is received, and how long a receive takes. So of a walk over this link, only what holds
/// over any link is known.
#[derive(Drop)]
pub struct UdpLink {
    socket: UdpSocket,
    agent: SocketAddr,
    faults: u64,
}

impl UdpLink {
    ghost use Rattle.std.specs.Prelude.{◌≡◌, ◌<◌, IfOk, true};
    ghost use Rattle.std.specs.declared.net.ip_addr.IpAddr.{IpAddr};
    ghost use Rattle.std.specs.{Net.Grammar.IsIpText, Net.Addr.is_ipv4};
    ghost use Rattle.std.specs.Net.Socket.{IsPlainSocket, socket_ip};
    ghost use Rattle.snmp_io.specs.Count.{HasIncreased};

    /// Opens a link to `port` of the first IPv4 address of `host`. A receive over it waits up to
    /// `seconds` seconds.
    ///
    /// Fails if no IPv4 address of the host is found, or if the system refuses a socket or its time
    /// limit.
    pub fn open<N: Net>(net: &N, host: &str, port: u16, seconds: u64) -> Result<UdpLink, LinkFault>
        // The time limit of a receive is at least a second.
        requires { 0 < seconds }
        ensures no_fault { IfOk result (λ link. link.faults ≡ 0) }
        ensures address { IfOk result (λ link. (ip : IpAddr) → IsIpText host.now ip
            → is_ipv4 ip ≡ true
            → IsIpText host.now (socket_ip link.agent) × IsPlainSocket link.agent port) }
    {
        let Some(agent) = first_address(net, host, port) else {
            return Err(LinkFault);
        };
        let Ok(socket) = UdpSocket::bind(net, "0.0.0.0:0") else {
            return Err(LinkFault);
        };
        match socket.set_read_timeout(Some(Duration::from_secs(seconds))) {
            Ok(()) => Ok(UdpLink {
                socket,
                agent,
                faults: 0,
            }),
            Err(_) => Err(LinkFault),
        }
    }

    /// Counts a fault and returns it.
    fn fault(&mut self) -> LinkFault
        ensures { HasIncreased self.old.faults self.new.faults }
    {
        self.faults = self.faults.saturating_add(1);
        LinkFault
    }
}

impl Link for UdpLink {
    ghost use Rattle.std.specs.Prelude.{[]};
    ghost use Rattle.snmp_walk.specs.Link.{Agents};
    ghost use Rattle.snmp_walk.specs.Traffic.{Traffic};

    // Nothing is known of the link but its count of faults.
    ghost records = { λ _. ⊥ };

    ghost honest = { λ _. ⊥ };

    ghost agents = { λ _. record { tables = []; community = []; max_size = 0 } };

    ghost traffic = { λ _. record { sent = []; ahead = [] } };

    ghost fault_count = { λ link. link.faults };

    ghost ready = { λ _ _ _. ⊥ };

    ghost delivers = { λ _ _ _. Unit {0} };

    ghost recording = { λ _ h. h };

    ghost lawful = { λ _ h. absurd h };

    fn send(&mut self, datagram: &[u8]) -> Result<(), LinkFault> {
        match self.socket.send_to(datagram, self.agent) {
            Ok(size) if size == datagram.len() => Ok(()),
            _ => Err(self.fault()),
        }
    }

    fn receive(&mut self, buffer: &mut [u8]) -> Result<Option<usize>, LinkFault> {
        match self.socket.recv_from(buffer) {
            Ok((size, sender)) if sender == self.agent => Ok(Some(size)),
            Ok(_) => Ok(Some(0)),
            Err(error) => match error.kind() {
                ErrorKind::WouldBlock | ErrorKind::TimedOut => Ok(None),
                // A signal: returned as a datagram that isn't a reply, so the try continues.
                ErrorKind::Interrupted => Ok(Some(0)),
                _ => Err(self.fault()),
            },
        }
    }

    fn faults(&self) -> u64 {
        self.faults
    }
}

/// Returns the first IPv4 address of `host` with the port `port`, or `None` if none is among the
/// first 32 addresses found. If `host` is an IPv4 address in text, the result has this address.
pub(crate) fn first_address<N: Net>(net: &N, host: &str, port: u16) -> Option<SocketAddr>
    ensures { (ip : IpAddr) → IsIpText host.now ip → is_ipv4 ip ≡ true
        → IfSome result (λ at. IsIpText host.now (socket_ip at) × IsPlainSocket at port) }
{
    first_ipv4((host, port).to_socket_addrs(net).ok()?)
}

/// Returns the first of `addresses` that is an IPv4 address, if there is one.
fn first_ipv4(addresses: Take<array::IntoIter<SocketAddr, 32>>) -> Option<SocketAddr>
    ensures { result ≡ find (λ address. is_ipv4 (socket_ip address)) (host_addrs addresses) }
{
    'addresses: for address in addresses {
        if address.is_ipv4() {
            return Some(address);
        }
    }
    None
}
