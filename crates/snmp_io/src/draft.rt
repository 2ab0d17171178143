//! Text that is appended to a vector whole or not at all.
ghost use Rattle.std.specs.Prelude.{◌≡◌, ◌<◌, ◌≤◌, ◌↔◌, [], ◌∷◌, ◌++◌, length, take, drop, decimal};
ghost use Rattle.std.specs.Prelude.{if◌then◌else◌, Some, None, OnOk, OnErr, IsOk, IsSome, IfSome};
ghost use Rattle.std.specs.Fmt.{signed_decimal};
ghost use Rattle.snmp_io.specs.Draft.{Written, Adds, empty_text_after, hexadecimal_octet};
ghost use Rattle.snmp_io.specs.Draft.{upper_digit};

use itoa::Buffer;
use std::alloc::AllocError;
use std::marker::Model;
use std::mem;

/// A text that is being appended to a `Vec<u8>`, which is left unchanged if memory runs out.
///
/// The calls that append return no error: if memory runs out, the draft remembers it, appends
/// nothing more, and [`Draft::finish`] reports it. A draft must be finished: until then the octets
/// of the vector are in the draft.
pub struct Draft {
    octets: Vec<u8>,
    start: usize,
    is_whole: bool,
}

impl Model for Draft {
    ghost Value = { Written };

    ghost view = { λ d. record {
      before = take d.start d.octets.items;
      added = (if d.is_whole then Some (drop d.start d.octets.items) else None);
    } };

    ghost invariant = { λ d. d.start ≤ length d.octets.items };
}

impl Draft {
    /// Begins a text after the octets of `out`, which is empty afterwards: [`Draft::finish`] moves
    /// the octets back. Doesn't allocate.
    #[inline]
    pub fn after(out: &mut Vec<u8>) -> Draft
        ensures { result ≡ empty_text_after out.old.items }
    {
        let empty = Vec::new(*out.allocator());
        let octets = mem::replace(out, empty);
        Draft {
            start: octets.len(),
            octets,
            is_whole: true,
        }
    }

    /// Appends `octets`, unchanged.
    #[inline]
    pub fn octets(&mut self, octets: &[u8])
        ensures { Adds self.old octets.now self.new }
    {
        if self.is_whole && self.octets.extend_from_slice(octets).is_err() {
            self.is_whole = false;
        }
    }

    /// Appends one octet.
    #[inline]
    pub fn octet(&mut self, octet: u8)
        ensures { Adds self.old (octet ∷ []) self.new }
    {
        self.octets(&[octet]);
    }

    /// Appends `n` in decimal digits, without leading zeros.
    #[inline]
    pub fn number(&mut self, n: u64)
        ensures { Adds self.old (decimal n) self.new }
    {
        // One or two digits need no buffer.
        if n < 10 {
            self.octet(b'0' + n as u8);
        } else if n < 100 {
            self.octets(&[b'0' + (n / 10) as u8, b'0' + (n % 10) as u8]);
        } else {
            self.long_number(n);
        }
    }

    /// Does what [`Draft::number`] does, for any number of digits.
    fn long_number(&mut self, n: u64)
        ensures { Adds self.old (decimal n) self.new }
    {
        let mut buffer = Buffer::new();
        self.octets(buffer.format(n).as_bytes());
    }

    /// Appends `n` in decimal digits, after a `-` if it is negative.
    #[inline]
    pub fn integer(&mut self, n: i64)
        ensures { Adds self.old (signed_decimal n) self.new }
    {
        if n < 0 {
            self.negative(n);
        } else {
            self.number(n.unsigned_abs());
        }
    }

    /// Does what [`Draft::integer`] does for a negative number, in one piece.
    fn negative(&mut self, n: i64)
        ensures { Adds self.old (signed_decimal n) self.new }
    {
        let mut buffer = Buffer::new();
        self.octets(buffer.format(n).as_bytes());
    }

    /// Appends `octet` as two upper-case hexadecimal digits, and `next` after them, in one piece.
    #[inline]
    pub fn hexadecimal_before(&mut self, octet: u8, next: u8)
        ensures { Adds self.old (hexadecimal_octet octet ++ next ∷ []) self.new }
    {
        self.octets(&[upper_digit(octet / 16), upper_digit(octet % 16), next]);
    }

    /// Sets `out` to the octets that precede the text, with the text after them. If memory ran out,
    /// fails, and sets `out` to only the octets that precede the text.
    pub fn finish(self, out: &mut Vec<u8>) -> Result<(), AllocError>
        ensures ok { OnOk result (IfSome self.added (λ text. out.new.items ≡ self.before ++ text)) }
        ensures unchanged_on_error { OnErr result (out.new.items ≡ self.before) }
        ensures ok_where_whole { IsOk result ↔ IsSome self.added }
    {
        let Draft {
            mut octets,
            start,
            is_whole,
        } = self;
        if !is_whole {
            octets.truncate(start);
        }
        *out = octets;
        if is_whole { Ok(()) } else { Err(AllocError) }
    }
}

/// Returns the upper-case hexadecimal digit of `n`.
#[inline]
fn upper_digit(n: u8) -> u8
    requires { n < 16 }
    ensures { result ≡ upper_digit n }
{
    if n < 10 { b'0' + n } else { b'A' + (n - 10) }
}
