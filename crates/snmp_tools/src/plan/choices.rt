//! What the letters of `-C` choose.
ghost use Rattle.std.specs.Prelude.{◌≤◌, ◌≡◌, ◌<◌, ℕ, true, false, length, slice_index, take};
ghost use Rattle.std.specs.Prelude.{MatchOption, MatchResult};
ghost use Rattle.std.specs.{Char.is_ascii_digit, List.list_all};
ghost use Rattle.snmp_walk.specs.WalkState.{IsMethod};
ghost use Rattle.snmp_tools.specs.private.Choosing.{OneMore};
ghost use Rattle.snmp_tools.specs.Letters.{AreRepetitions, HaveChosen, IsFirstUnknown, IsKnown};
ghost use Rattle.snmp_tools.specs.Letters.{IsUnknown, method_of, mode_of, no_choices};
ghost use Rattle.snmp_tools.specs.Question.{HasChosen, HasUnknown};

use crate::plan::Request;
use snmp_walk::{Method, Mode};

/// What the letters of `-C` choose.
#[derive(Clone, Copy, Debug)]
pub(crate) struct Choices {
    /// Whether the root's own instance comes first, if there is one (`i`).
    pub(crate) includes_root: bool,
    /// Whether the walk leaves out the Get of its root if nothing is below the root (`I`).
    pub(crate) leaves_last_get: bool,
    /// Whether the number of bindings is printed after their lines (`p`).
    pub(crate) counts: bool,
    /// The number of instances that a GetBulk asks for, 1 to 2147483647 (`r`).
    pub(crate) repetitions: u32,
    ghost some_repetitions: { 1 ≤ repetitions },
    ghost few_repetitions: { repetitions ≤ 2147483647 },
}

impl Choices {
    ghost use Rattle.snmp_tools.specs.private.Planned.{chosen, request_of};

    /// Returns what the letters of `-C` choose, or the defaults for a Get. The error is the first
    /// octet that has no meaning.
    pub(crate) fn of(request: Request<'_, '_>) -> Result<Choices, u8>
        ensures { MatchResult result (λ c. HasChosen (request_of request.entry) (chosen c))
            (HasUnknown (request_of request.entry)) }
    {
        match request {
            Request::Get(_) => Ok(Choices::none()),
            Request::Walk { bulk, letters, .. } => Choices::read(letters, bulk),
        }
    }

    /// Returns the defaults: what applies if `-C` isn't used.
    fn none() -> Choices
        ensures { chosen result ≡ no_choices }
    {
        Choices {
            includes_root: false,
            leaves_last_get: false,
            counts: false,
            repetitions: 10,
        }
    }

    // Returns what the letters of `-C` choose for snmpbulkwalk (`bulk`) or snmpwalk. The error is
    // the first octet that has no meaning.
    fn read(letters: &str, bulk: bool) -> Result<Choices, u8>
        ensures { MatchResult result (λ c. HaveChosen bulk letters.now (chosen c))
            (IsFirstUnknown bulk letters.now) }
    {
        let letters = letters.as_bytes();
        let mut choices = Choices::none();
        let mut at = 0;
        'parts: while at < letters.len() {
            let rest = &letters[at + 1..];
            let digits = leading_digits_len(rest);
            choices = choices.after(letters[at], &rest[..digits], bulk)?;
            at += 1 + digits;
        }
        Ok(choices)
    }

    // Returns the choices after one letter more, with the digits after it. The error is the octet
    // that has no meaning: the letter, or the first digit after a letter that takes none.
    fn after(self, letter: u8, digits: &[u8], bulk: bool) -> Result<Choices, u8>
        requires { list_all is_ascii_digit digits.now ≡ true }
        ensures { MatchResult result
            (λ c. IsKnown bulk (letter, digits.now)
            × OneMore (letter, digits.now) (chosen self) (chosen c))
            (IsUnknown bulk (letter, digits.now)) }
    {
        let mut choices = self;
        match letter {
            b'r' if bulk => {
                choices.repetitions = repetitions(digits).ok_or(letter)?;
                return Ok(choices);
            }
            b'i' => choices.includes_root = true,
            b'p' => choices.counts = true,
            b'I' if !bulk => choices.leaves_last_get = true,
            _ => return Err(letter),
        }
        match digits.first() {
            Some(digit) => Err(*digit),
            None => Ok(choices),
        }
    }

    /// Returns what the walk returns besides the instances below its root.
    pub(crate) fn mode(self) -> Mode
        ensures { result ≡ mode_of (chosen self) }
    {
        if self.includes_root {
            Mode::Include
        } else if self.leaves_last_get {
            Mode::NoLast
        } else {
            Mode::Plain
        }
    }

    /// Returns the requests with which the walk asks: GetBulk if `bulk`, otherwise GetNext.
    pub(crate) fn method(self, bulk: bool) -> Method
        ensures method { result ≡ method_of bulk (chosen self) }
        ensures lawful { IsMethod result }
    {
        if bulk {
            Method::Bulk(self.repetitions as i32)
        } else {
            Method::Next
        }
    }
}

/// Returns how many digits `text` begins with.
fn leading_digits_len(text: &[u8]) -> usize
    ensures within { result ≤ length text.now }
    ensures digits { list_all is_ascii_digit (take result text.now) ≡ true }
    ensures maximal { result < length text.now
        → is_ascii_digit (slice_index text.now result) ≡ false }
{
    'octets: for (i, octet) in text.iter().enumerate() {
        if !octet.is_ascii_digit() {
            return i;
        }
    }
    text.len()
}

/// Returns the number that `digits` spell, or `None` if it isn't from 1 to 2147483647.
fn repetitions(digits: &[u8]) -> Option<u32>
    requires { list_all is_ascii_digit digits.now ≡ true }
    ensures { MatchOption result ((n : ℕ) → AreRepetitions digits.now n → ⊥)
        (AreRepetitions digits.now) }
{
    let mut number = 0;
    'digits: for digit in digits {
        number = number * 10 + u64::from(*digit - b'0');
        if number > 2_147_483_647 {
            return None;
        }
    }
    (number > 0).then_some(number as u32)
}
