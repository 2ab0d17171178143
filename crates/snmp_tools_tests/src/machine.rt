//! Outputs and files, of the machine and in memory: which calls succeed and which fail, and that an
//! interrupted write is tried again.

use snmp_io::memory::{MemoryFiles, MemoryOutput};
use snmp_io::{FileFault, Files, MachineFiles, MachineOutput, Output, write_all};
use std::alloc::Global;
use std::io;
use std::io::{ErrorKind, Write};
use std::process::Abort;

// An output that interrupts every second write, beginning with the first. It accepts at most three
// octets a write, and is full after eight octets.
#[derive(Drop)]
struct Hesitant {
    turns: u32,
    taken: usize,
}

impl Write for Hesitant {
    fn write(&mut self, piece: &[u8]) -> io::Result<usize> {
        self.turns = self.turns.saturating_add(1);
        if self.turns % 2 == 1 {
            return Err(io::Error::from(ErrorKind::Interrupted));
        }
        let n = piece.len().min(3).min(8usize.saturating_sub(self.taken));
        self.taken = self.taken.saturating_add(n);
        Ok(n)
    }

    fn flush(&mut self) -> io::Result<()> {
        Ok(())
    }
}

#[test]
fn interrupted_writes_are_tried_again(rt: HostRuntime) {
    let mut out = MachineOutput::new(Hesitant { turns: 0, taken: 0 });
    assert!(rt; write_all(&mut out, b"seven..").is_ok());
    assert_eq!(rt; out.faults(), 0);
    assert!(rt; write_all(&mut out, b"four").is_err());
    assert_eq!(rt; out.faults(), 1);
}

// Asserts that an output accepts five octets and no more.
fn assert_takes_five(rt: &impl Abort, out: &mut MemoryOutput) {
    assert!(rt; write_all(out, b"abc").is_ok());
    assert!(rt; write_all(out, b"def").is_err());
    assert!(rt; out.octets() == b"abcde".as_slice());
    assert_eq!(rt; out.faults(), 1);
}

// Asserts that an output accepts six octets.
fn assert_takes_six(rt: &impl Abort, out: &mut MemoryOutput) {
    assert!(rt; write_all(out, b"abcdef").is_ok());
    assert!(rt; out.octets() == b"abcdef".as_slice());
}

#[test]
fn an_output_in_memory_accepts_octets_up_to_its_limit(rt: HostRuntime) {
    let mut limited = MemoryOutput::with_limit(rt.alloc(), 5);
    assert_takes_five(&rt, &mut limited);
    let mut all = MemoryOutput::new(rt.alloc());
    assert_takes_six(&rt, &mut all);
}

// Asserts that a file can be read, and has these octets.
fn assert_read(rt: &impl Abort, alloc: Global, files: &impl Files, path: &str, octets: &[u8]) {
    assert!(rt; files.read(alloc, path).expect(rt, path).as_slice() == octets);
}

// Asserts that a file can't be read.
fn assert_unreadable(rt: &impl Abort, alloc: Global, files: &impl Files, path: &str) {
    assert!(rt; matches!(files.read(alloc, path), Err(FileFault::Unreadable)));
}

#[test]
fn files_are_read_or_unreadable(rt: HostRuntime) {
    let alloc = rt.alloc();
    let contents = [("a", b"text".as_slice()), ("b", b"".as_slice())];
    let files = MemoryFiles { files: &contents };
    assert_read(&rt, alloc, &files, "a", b"text");
    assert_read(&rt, alloc, &files, "b", b"");
    assert_unreadable(&rt, alloc, &files, "c");
    let machine = MachineFiles { rt: &rt };
    assert_unreadable(&rt, alloc, &machine, "no/such/file");
    assert_unreadable(&rt, alloc, &machine, "/dev/zero");
    assert_read(&rt, alloc, &machine, "/dev/null", b"");
}
