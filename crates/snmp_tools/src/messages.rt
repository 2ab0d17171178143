//! The output for warnings and messages.
ghost use Rattle.snmp_io.specs.Output.{IsWritten, Stream};

use snmp_io::{Output, write_all};

/// An output for warnings and messages, as standard error is. A write that fails isn't reported to
/// the caller, so nothing else that a job does depends on it.
pub(crate) trait Messages {
    /// What is known of the output: the octets that it took, and the number of writes that failed.
    ghost stream: { Self → Stream };

    /// Writes `text`. If a write fails, only a prefix of `text` is written.
    fn tell(&mut self, text: &[u8])
        ensures { IsWritten (stream self.old) text.now (stream self.new) };
}

impl<O: Output> Messages for O {
    ghost stream = { λ out. O.stream out };

    fn tell(&mut self, text: &[u8]) {
        let _ = write_all(self, text);
    }
}
