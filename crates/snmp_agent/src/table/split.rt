//! Functions that cut a text at an octet.
ghost use Rattle.std.specs.Prelude.{◌≡◌, ◌≢◌, ◌<◌, ◌++◌, ◌∷◌, length, All, MatchOption};
ghost use Rattle.std.specs.Str.Lines.{lines, strip_carriage_return};

use memchr::memchr;

/// Returns the texts before and after the first octet that equals `separator`, or `None` if there
/// is none.
#[inline]
pub fn split_once(text: &[u8], separator: u8) -> Option<(&[u8], &[u8])>
    ensures { MatchOption result (All (λ octet. octet ≢ separator) text.now)
        (λ parts. (text.now ≡ parts.0.now ++ separator ∷ parts.1.now)
        × All (λ octet. octet ≢ separator) parts.0.now) }
{
    let end = memchr(separator, text)?;
    Some((&text[..end], &text[end + 1..]))
}

/// Returns what [`split_once`] returns, faster if the second or third octet of `text` is mostly
/// the separator, as after a tag: these octets are tested before the text is searched.
#[inline]
pub fn split_near(text: &[u8], separator: u8) -> Option<(&[u8], &[u8])>
    ensures { MatchOption result (All (λ octet. octet ≢ separator) text.now)
        (λ parts. (text.now ≡ parts.0.now ++ separator ∷ parts.1.now)
        × All (λ octet. octet ≢ separator) parts.0.now) }
{
    match text {
        [first, end, rest @ ..] if *first != separator && *end == separator => {
            Some((&text[..1], rest))
        }
        [first, second, end, rest @ ..]
            if *first != separator && *second != separator && *end == separator => {
            Some((&text[..2], rest))
        }
        _ => split_once(text, separator),
    }
}

/// Returns the first line of `text` without its line end, and the text after it. `text` must not
/// be empty.
pub fn split_line(text: &[u8]) -> (&[u8], &[u8])
    requires { 0 < length text.now }
    ensures lines { lines text.now ≡ result.0.now ∷ lines result.1.now }
    ensures shorter { length result.1.now < length text.now }
{
    match split_once(text, b'\n') {
        Some((line, after)) => (without_return(line), after),
        None => (text, &[]),
    }
}

/// Returns `text` without a CR at its end.
fn without_return(text: &[u8]) -> &[u8]
    ensures { result.now ≡ strip_carriage_return text.now }
{
    match text {
        [line @ .., b'\r'] => line,
        _ => text,
    }
}
