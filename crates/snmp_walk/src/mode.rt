//! The options of a walk, its mode and its method, and which of its requests is waiting.

/// What a walk returns besides the instances below its root.
#[derive(Clone, Copy, Debug, PartialEq, Eq)]
pub enum Mode {
    /// If no instance is below the root, the walk returns the result of a Get of the root: a value
    /// or an exception.
    Plain,
    /// The walk begins with the root's own instance, if there is one.
    Include,
    /// The walk returns only the instances below the root.
    NoLast,
}

/// How a walk asks for the next instances.
#[derive(Clone, Copy, Debug, PartialEq, Eq)]
pub enum Method {
    /// By GetNext (RFC 3416, section 4.2.2), one instance a request.
    Next,
    /// By GetBulk (RFC 3416, section 4.2.3). Holds its max-repetitions, 1 to 2147483647: how many
    /// instances a request asks for.
    Bulk(i32),
}

/// Which request of a walk waits for its reply.
#[derive(Clone, Copy, Debug, PartialEq, Eq)]
pub enum Phase {
    /// The Get of the root that begins a walk with [`Mode::Include`].
    First,
    /// A request for the next instances.
    Rows,
    /// The Get of the root that ends a walk with [`Mode::Plain`] if nothing is below the root.
    Last,
    /// None: the walk has ended.
    Over,
}
