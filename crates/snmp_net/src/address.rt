//! The arguments that name an agent, such as `table:FILE`, `router`, `udp:10.0.0.1:1161`, and the
//! address that a server listens on.
ghost use Rattle.std.specs.Prelude.{◌≡◌, ◌≢◌, ℕ, List, [], Contains, IsTrue, IfSome, IfNone, ◌↔◌};
ghost use Rattle.snmp_net.specs.Address.{IsHost, IsHostAndPort, IsPort, IsPortOfHost, IsTarget};

/// The UDP port that agents listen on by default (RFC 3417, section 3.2).
const SNMP_PORT: u16 = 161;

/// A UDP port of a host.
#[derive(Clone, Copy, Debug, PartialEq, Eq)]
pub struct UdpAddress<'a> {
    /// The host's name, or its IPv4 address.
    pub host: &'a str,
    /// The port: 1 to 65535 in an address that was read.
    pub port: u16,
}

impl<'a> UdpAddress<'a> {
    ghost use Rattle.std.specs.Prelude.{◌≡◌, ℕ, List, IfSome, IfNone};
    ghost use Rattle.snmp_net.specs.Address.{IsHostAndPort, IsPortOfHost, IsTarget};

    /// Reads `HOST:PORT`, the address that a server listens on: a host that isn't empty, and a
    /// port from 1 to 65535. Returns `None` for any other argument, and for one that begins with
    /// `table:` or `udp:`, the prefixes of arguments that name an agent.
    pub fn read(word: &'a str) -> Option<UdpAddress<'a>>
        ensures stated { IfSome result (λ at. IsHostAndPort word.now at.host.now at.port) }
        ensures only { IfSome result (λ at. (host : List ℕ) (port : ℕ)
            → IsHostAndPort word.now host port → (host ≡ at.host.now) × (port ≡ at.port)) }
        ensures none { IfNone result ((host : List ℕ) (port : ℕ)
            → IsHostAndPort word.now host port → ⊥) }
    {
        if word.starts_with("table:") || word.starts_with("udp:") {
            return None;
        }
        UdpAddress::port_of_host(word)
    }

    /// Reads `HOST:PORT`; the host may be named `table` or `udp`.
    fn port_of_host(word: &'a str) -> Option<UdpAddress<'a>>
        ensures stated { IfSome result (λ at. IsPortOfHost word.now at.host.now at.port) }
        ensures only { IfSome result (λ at. (host : List ℕ) (port : ℕ)
            → IsPortOfHost word.now host port → (host ≡ at.host.now) × (port ≡ at.port)) }
        ensures none { IfNone result ((host : List ℕ) (port : ℕ)
            → IsPortOfHost word.now host port → ⊥) }
    {
        let Some((host, digits)) = word.split_once(':') else {
            return None;
        };
        if host.is_empty() {
            return None;
        }
        match port(digits) {
            Some(port) => Some(UdpAddress { host, port }),
            None => None,
        }
    }

    /// Reads `HOST`, at port 161, or `HOST:PORT`.
    fn target(word: &'a str) -> Option<UdpAddress<'a>>
        ensures stated { IfSome result (λ at. IsTarget word.now at.host.now at.port) }
        ensures only { IfSome result (λ at. (host : List ℕ) (port : ℕ)
            → IsTarget word.now host port → (host ≡ at.host.now) × (port ≡ at.port)) }
        ensures none { IfNone result ((host : List ℕ) (port : ℕ)
            → IsTarget word.now host port → ⊥) }
    {
        if is_host(word) {
            return Some(UdpAddress {
                host: word,
                port: SNMP_PORT,
            });
        }
        UdpAddress::port_of_host(word)
    }
}

/// The address of an agent.
#[derive(Clone, Copy, Debug, PartialEq, Eq)]
pub enum AgentAddress<'a> {
    /// The agent is in this process, over the table in the file at this path.
    Table(&'a str),
    /// The agent is at a UDP port of a host.
    Udp(UdpAddress<'a>),
}

impl<'a> AgentAddress<'a> {
    ghost use Rattle.std.specs.Prelude.{◌≡◌, IfSome, IfNone};
    ghost use Rattle.snmp_net.specs.Address.{Address, IsAgent, address_of};

    /// Reads the argument that names an agent: `table:PATH`, or `HOST` or `HOST:PORT`, perhaps
    /// after `udp:`. A `table:` or `udp:` at the start is always this prefix, never a host.
    pub fn read(word: &'a str) -> Option<AgentAddress<'a>>
        ensures stated { IfSome result (λ agent. IsAgent word.now (address_of agent)) }
        ensures only { IfSome result (λ agent. (other : Address)
            → IsAgent word.now other → other ≡ address_of agent) }
        ensures none { IfNone result ((address : Address) → IsAgent word.now address → ⊥) }
    {
        if let Some(path) = word.strip_prefix("table:") {
            if path.is_empty() {
                return None;
            }
            return Some(AgentAddress::Table(path));
        }
        let target = match word.strip_prefix("udp:") {
            Some(rest) => UdpAddress::target(rest),
            None => UdpAddress::target(word),
        };
        match target {
            Some(at) => Some(AgentAddress::Udp(at)),
            None => None,
        }
    }
}

/// Returns whether `text` is a host: it isn't empty and has no colon.
fn is_host(text: &str) -> bool
    ensures { IsTrue result ↔ IsHost text.now }
{
    !text.is_empty() && !text.contains(':')
}

/// Returns the port from 1 to 65535 that `digits` write in decimal, or `None` if they don't write
/// one.
fn port(digits: &str) -> Option<u16>
    ensures stated { IfSome result (IsPort digits.now) }
    ensures none { IfNone result ((port : ℕ) → IsPort digits.now port → ⊥) }
{
    if digits.starts_with('+') {
        return None;
    }
    match digits.parse::<u16>() {
        Ok(port) if port > 0 => Some(port),
        _ => None,
    }
}
