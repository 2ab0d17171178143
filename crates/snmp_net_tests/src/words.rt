//! Arguments that are addresses: addresses of agents, and addresses to listen at.

use snmp_net::{AgentAddress, UdpAddress};

/// Returns whether `word` is the address of the agent at this port of this host.
fn is_udp(word: &str, host: &str, port: u16) -> bool {
    let at = UdpAddress { host, port };
    AgentAddress::read(word) == Some(AgentAddress::Udp(at))
}

/// Returns whether `word` names the agent whose table is in this file.
fn is_table(word: &str, path: &str) -> bool {
    AgentAddress::read(word) == Some(AgentAddress::Table(path))
}

/// Returns whether `word` isn't the address of an agent.
fn is_no_agent(word: &str) -> bool {
    AgentAddress::read(word).is_none()
}

/// Returns whether `word` isn't an address to listen at.
fn is_no_listen_address(word: &str) -> bool {
    UdpAddress::read(word).is_none()
}

#[test]
fn addresses_of_agents_are_read(rt: HostRuntime) {
    // The argument, and the host and the port of the agent.
    const AGENTS: &[(&str, &str, u16)] = &[
        ("router", "router", 161),
        ("192.0.2.1", "192.0.2.1", 161),
        ("192.0.2.1:1161", "192.0.2.1", 1161),
        ("udp:router", "router", 161),
        ("udp:router:1", "router", 1),
        ("router:65535", "router", 65535),
        ("router:0161", "router", 161),
        ("router:000000000000000000000000161", "router", 161),
        ("udp", "udp", 161),
        ("udp:161", "161", 161),
        ("table", "table", 161),
        ("udp:table", "table", 161),
        ("udp:table:162", "table", 162),
    ];
    for &(word, host, port) in AGENTS {
        assert!(rt; is_udp(word, host, port));
    }
    // The argument, and the path of the agent's table.
    const TABLES: &[(&str, &str)] = &[
        ("table:three.tab", "three.tab"),
        ("table:udp:a:b", "udp:a:b"),
        ("table:161", "161"),
    ];
    for &(word, path) in TABLES {
        assert!(rt; is_table(word, path));
    }
}

#[test]
fn other_arguments_are_no_address_of_an_agent(rt: HostRuntime) {
    const OTHERS: &[&str] = &[
        "",
        ":",
        ":161",
        "table:",
        "udp:",
        "udp::161",
        "udp:a:",
        "a:",
        "a:0",
        "a:65536",
        "a:+161",
        "a:-1",
        "a: 161",
        "a:161 ",
        "a:x",
        "a:1:2",
        "::1",
        "udp:udp:a:1",
        "a:99999999999999999999",
    ];
    for word in OTHERS {
        assert!(rt; is_no_agent(word));
    }
}

/// Returns whether `word` is an address to listen at: this port of this host.
fn is_listen_address(word: &str, host: &str, port: u16) -> bool {
    UdpAddress::read(word) == Some(UdpAddress { host, port })
}

#[test]
fn an_address_to_listen_at_has_a_port(rt: HostRuntime) {
    // The argument, and its host and port.
    const ADDRESSES: &[(&str, &str, u16)] = &[
        ("127.0.0.1:1161", "127.0.0.1", 1161),
        ("0.0.0.0:161", "0.0.0.0", 161),
        ("host:161", "host", 161),
        ("tables:161", "tables", 161),
        ("udp.example:161", "udp.example", 161),
    ];
    for &(word, host, port) in ADDRESSES {
        assert!(rt; is_listen_address(word, host, port));
    }
    const OTHERS: &[&str] = &[
        "127.0.0.1",
        "udp:127.0.0.1:161",
        "udp:161",
        "table:161",
        "a:",
        ":161",
        "a:0",
        "a:65536",
        "a:+1",
        "table:x",
        "",
    ];
    for word in OTHERS {
        assert!(rt; is_no_listen_address(word));
    }
}
