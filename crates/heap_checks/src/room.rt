//! A buffer of fixed size.

use snmp_oid::{Oid, write_numeric};

/// A slice with the octets that were appended to it. Octets without room are dropped, and nothing
/// is allocated.
#[derive(Drop)]
pub struct Room<'a> {
    octets: &'a mut [u8],
    used: usize,
}

impl<'a> Room<'a> {
    /// Returns a room without octets.
    pub fn new(octets: &'a mut [u8]) -> Room<'a> {
        Room { octets, used: 0 }
    }

    /// Appends octets, as far as there is room.
    pub fn append(&mut self, text: &[u8]) {
        'octets: for octet in text {
            if let Some(target) = self.octets.get_mut(self.used) {
                *target = *octet;
                self.used = self.used.saturating_add(1);
            }
        }
    }

    /// Appends a text and a newline.
    pub fn append_line(&mut self, text: &[u8]) {
        self.append(text);
        self.append(b"\n");
    }

    /// Appends an identifier in numbers, and a newline.
    pub fn append_name(&mut self, name: &Oid) {
        let mut text = [0; 1408];
        let size = write_numeric(name, &mut text).unwrap_or(0);
        self.append_line(text.get(..size).unwrap_or(&[]));
    }

    /// Returns what was appended, as far as there was room.
    pub fn octets(&self) -> &[u8] {
        self.octets.get(..self.used).unwrap_or(&[])
    }
}
