//! The configuration of an agent, and what it does with a datagram.
ghost use Rattle.std.specs.Prelude.{◌≤◌, length};

/// The configuration of an agent.
#[derive(Clone, Copy, Debug)]
pub struct Config<'a> {
    /// The community of the requests that the agent serves, of at most 255 octets.
    pub community: &'a [u8],
    /// The greatest length of the agent's messages, in octets: from 1 to 65507.
    pub max_size: usize,
    ghost short: { length community.now ≤ 255 },
    ghost positive: { 1 ≤ max_size },
    ghost datagram: { max_size ≤ 65507 },
}

/// What an agent does with a datagram.
#[derive(Clone, Copy, Debug, PartialEq, Eq)]
pub enum Outcome {
    /// A reply, at the start of the output buffer. Holds its length in octets.
    Reply(usize),
    /// No reply, for this reason.
    Dropped(DropReason),
}

/// Why a datagram has no reply: the first reason that applies.
#[derive(Clone, Copy, Debug, PartialEq, Eq, thiserror::Error)]
pub enum DropReason {
    /// The datagram can't be decoded.
    #[error("no message")]
    Undecodable,
    /// The version isn't 1, which stands for SNMPv2c.
    #[error("another version than 2c")]
    Version,
    /// The community isn't the agent's.
    #[error("another community")]
    Community,
    /// The PDU isn't a Get, a GetNext, a GetBulk or a Set.
    #[error("no request that is served")]
    Pdu,
    /// No reply fits into `max_size` octets, not even one without bindings.
    #[error("no reply fits")]
    TooLong,
}
