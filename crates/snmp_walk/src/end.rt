//! Why a walk can't begin, how it ends, and the faults of links and sinks.

use snmp_wire::Oid;
use thiserror::Error;

/// How a walk or a Get ended.
#[derive(Debug, Drop, PartialEq)]
pub enum WalkEnd {
    /// The walk or the Get is complete. Holds the number of bindings passed on.
    Done(u64),
    /// The agent's reply has an error status other than 0. Holds its error-status and its
    /// error-index (RFC 3416, section 3).
    Fault(i32, i32),
    /// The reply to a request for the next instances has no bindings.
    NoProgress {
        /// The name in the request. Instances after it were asked for.
        asked: Oid,
    },
    /// The reply doesn't match the request: it has more bindings than were asked for, or fewer than
    /// a Get asked for, another name than the Get, or an exception that such a reply can't have.
    BadReply,
    /// A name below the root isn't greater than the one before it.
    NotIncreasing {
        /// The name before it: the name of the last binding passed on, or the name that the walk
        /// began from.
        last: Oid,
        /// The name that isn't greater.
        got: Oid,
    },
    /// The next request would need an id above 2147483647.
    TooManyRequests,
    /// The request of a Get is longer than a datagram can be.
    RequestTooLong,
    /// A request was sent as many times as allowed, and its reply wasn't received.
    NoResponse,
    /// The link failed to send or to receive.
    Link,
    /// The sink refused a binding.
    Sink(SinkFault),
}

/// Why a sink refuses a binding.
#[derive(Clone, Copy, Debug, PartialEq, Eq, Error)]
pub enum SinkFault {
    /// The output that the sink writes to failed.
    #[error("the output failed")]
    Output,
    /// Memory for the binding ran out.
    #[error("out of memory")]
    Memory,
}

/// Why a walk can't begin.
#[derive(Clone, Copy, Debug, PartialEq, Eq, Error)]
pub enum StartError {
    /// A name has no encoding, even padded with zeros to two numbers (X.690, 8.19.4).
    #[error("the name can't be sent")]
    NotWire,
    /// The name to resume after is neither the root nor below it.
    #[error("the name isn't below the root")]
    AfterOutsideRoot,
}

/// A link failed to send or to receive.
#[derive(Clone, Copy, Debug, PartialEq, Eq, Error)]
#[error("the link failed")]
pub struct LinkFault;
