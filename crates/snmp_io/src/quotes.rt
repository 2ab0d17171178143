//! Cuts a text at an octet outside quotes: names at `.` and `:`, and lines of a table at `|`.
ghost use Rattle.std.specs.Prelude.{◌≡◌, MatchOption};
ghost use Rattle.snmp_io.specs.Quotes.{HasNoneOutside, IsCut, IsUnquotedPrefix, is_quote};
ghost use Rattle.snmp_io.specs.Quotes.{open_after};

/// Splits `text` at the first octet that equals `stop` and is outside quotes. Returns what is
/// before and after it, or `None` if there is none. A quote opens with `"` or `'`, and ends with
/// the next octet of its kind, or with the text if none follows.
pub fn split_unquoted(text: &[u8], stop: u8) -> Option<(&[u8], &[u8])>
    ensures { MatchOption result (HasNoneOutside stop text.now)
        (λ parts. IsCut stop text.now parts.0.now parts.1.now) }
{
    // Hot: may run for each line of a table. Most lines have no quote, and until the first one this
    // loop needn't track which quote is open.
    'octets: for (at, octet) in text.iter().enumerate() {
        if *octet == stop {
            return Some((&text[..at], &text[at + 1..]));
        }
        if is_quote(*octet) {
            return split_quoted(text, stop);
        }
    }
    None
}

/// Returns whether `octet` is `"` or `'`, which open a quote outside quotes.
#[inline]
pub fn is_quote(octet: u8) -> bool
    ensures { result ≡ is_quote octet }
{
    octet == b'"' || octet == b'\''
}

/// Does what [`split_unquoted`] does, for a text that may have quotes.
fn split_quoted(text: &[u8], stop: u8) -> Option<(&[u8], &[u8])>
    ensures { MatchOption result (HasNoneOutside stop text.now)
        (λ parts. IsCut stop text.now parts.0.now parts.1.now) }
{
    let mut quote = None;
    'octets: for (at, octet) in text.iter().enumerate() {
        if quote.is_none() && *octet == stop {
            return Some((&text[..at], &text[at + 1..]));
        }
        quote = open_after(quote, *octet);
    }
    None
}

/// Returns what is before the first octet that equals `stop` and is outside quotes, or all of
/// `text` if there is none.
pub fn unquoted_prefix(text: &[u8], stop: u8) -> &[u8]
    ensures { IsUnquotedPrefix stop text.now result.now }
{
    match split_unquoted(text, stop) {
        Some((prefix, _)) => prefix,
        None => text,
    }
}

/// Returns the quote that is open after `octet`; `before` is the quote that was open before it.
pub fn open_after(before: Option<u8>, octet: u8) -> Option<u8>
    ensures { result ≡ open_after before octet }
{
    match before {
        None if is_quote(octet) => Some(octet),
        Some(quote) if octet == quote => None,
        _ => before,
    }
}
