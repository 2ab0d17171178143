//! The lengths of lexemes, and of the gaps between them: blank octets and comments.
ghost use Rattle.std.specs.Prelude.{◌≡◌, ◌≤◌, ◌<◌, ℕ, drop, length};
ghost use Rattle.std.specs.{List.list_all, Option.option_map};
ghost use Rattle.std.specs.Char.{is_ascii_digit, is_ascii_hexdigit};
ghost use Rattle.smi_text.specs.lexer.Lexeme.{IsLexeme, lexeme, is_binary_digit, is_blank};
ghost use Rattle.smi_text.specs.lexer.Lexeme.{is_hyphen, is_open_string, is_word_octet};
ghost use Rattle.smi_text.specs.lexer.Lexeme.{is_word_rest};
ghost use Rattle.smi_text.specs.lexer.LongestMatch.{GoesOn, HasNoGap, IsFirstIndex, IsLexemePrefix};
ghost use Rattle.smi_text.specs.lexer.LongestMatch.{ArePassedBetween, IsRunBetween};
ghost use Rattle.smi_text.specs.lexer.LongestMatch.{is_space_or_tab};
ghost use Rattle.smi_text.specs.lexer.LongestMatch.{IsLongestPassing, IsPartPrefix, IsRemarkEnd};
ghost use Rattle.smi_text.specs.lexer.LongestMatch.{Skips};
ghost use Rattle.smi_text.specs.lexer.LongestMatch.{is_comment_rest, is_remark_rest, hyphen_part};
ghost use Rattle.smi_text.specs.lexer.LongestMatch.{literal_of, literal_part, newlines, part_in};
ghost use Rattle.smi_text.specs.lexer.LongestMatch.{part_of, string_part, symbol_part};

use crate::lexer::class::{Class, class_of_octet};
use crate::lexer::lanes::{LANES, blank_run, word_run};
use crate::lexer::token::TokenKind;
use memchr::{memchr, memchr_iter};

/// Returns whether `octet` is blank: tab, LF, VT, FF, CR or space.
fn is_blank(octet: u8) -> bool
    ensures { result ≡ is_blank octet }
{
    octet == b' ' || (octet >= b'\t' && octet <= b'\r')
}

/// Returns whether `octet` is a letter, a digit or `_`.
fn is_word_octet(octet: u8) -> bool
    ensures { result ≡ is_word_octet octet }
{
    octet.is_ascii_alphanumeric() || octet == b'_'
}

/// Returns the offset after the run of letters, digits and `_`, perhaps empty, that begins at
/// offset `from`.
fn word_run_end(text: &[u8], from: usize) -> usize
    requires { from ≤ length text.now }
    ensures { IsRunBetween is_word_octet text.now from result }
{
    let mut n = from;
    // Most runs end within the first load of `LANES` octets.
    'loads: while text.len() - n >= LANES {
        let run = word_run(text, n);
        n += run;
        if run < LANES {
            return n;
        }
    }
    'octets: while n < text.len() && is_word_octet(text[n]) {
        n += 1;
    }
    n
}

/// Returns how many octets of `text` belong to a word. `text` begins after the word's first
/// letter.
fn word_rest_len(text: &[u8]) -> usize
    ensures { IsLongestPassing is_word_rest text.now result }
{
    let mut n = word_run_end(text, 0);
    'parts: while n < text.len() && text[n] == b'-' {
        let end = part_end(text, n + 1);
        if end == n + 1 {
            break;
        }
        n = end;
    }
    n
}

/// Returns what `word_run_end` returns, and is faster if one letter, digit or `_` and then a hyphen
/// follow. `from` is the offset after a hyphen.
#[inline(always)]
fn part_end(text: &[u8], from: usize) -> usize
    requires { from ≤ length text.now }
    ensures { IsRunBetween is_word_octet text.now from result }
{
    // A run of one octet before the next hyphen needs no vector load, which would take longer.
    if from + 1 < text.len() && text[from + 1] == b'-' && is_word_octet(text[from]) {
        return from + 1;
    }
    word_run_end(text, from)
}

/// Returns the number of digits at the start of `text`.
fn digits_len(text: &[u8]) -> usize
    ensures { IsLongestPassing (list_all is_ascii_digit) text.now result }
{
    let mut n = 0;
    'octets: while n < text.len() && text[n].is_ascii_digit() {
        n += 1;
    }
    n
}

/// Returns the number of hyphens at the start of `text`.
fn hyphens_len(text: &[u8]) -> usize
    ensures { IsLongestPassing (list_all is_hyphen) text.now result }
{
    let mut n = 0;
    'octets: while n < text.len() && text[n] == b'-' {
        n += 1;
    }
    n
}

/// Returns the number of octets of `text` before the first newline, or before the first two hyphens
/// in a row if these come earlier. If neither occurs, this is the length of `text`.
fn remark_len(text: &[u8]) -> usize
    ensures within { result ≤ length text.now }
    ensures same { GoesOn is_remark_rest text.now result }
    ensures ends { IsRemarkEnd (drop result text.now) }
{
    'octets: for (n, octet) in text.iter().enumerate() {
        if *octet == b'\n' {
            return n;
        }
        if *octet == b'-' && n + 1 < text.len() && text[n + 1] == b'-' {
            return n;
        }
    }
    text.len()
}

/// Returns how many octets of `text` belong to a comment. `text` begins after the first two
/// hyphens.
fn comment_rest_len(text: &[u8]) -> usize
    ensures { IsLongestPassing is_comment_rest text.now result }
{
    let opening = hyphens_len(text);
    let (_, remark) = text.split_at(opening);
    let len = remark_len(remark);
    let (_, closing) = remark.split_at(len);
    opening + (len + hyphens_len(closing))
}

/// Returns the offset of the first `octet` in `text`, if it occurs.
#[tactic(auto, using(crate::proofs::FirstIndex::first_found))]
fn first_index(octet: u8, text: &[u8]) -> Option<usize>
    ensures { IsFirstIndex octet text.now result }
{
    memchr(octet, text)
}

/// Returns the kind and the length of the rest of a string, its closing quote included. `text`
/// begins after the opening quote. Returns `None` if there is no closing quote.
#[tactic(auto, using(crate::proofs::Parts::string_none))]
fn string_rest(text: &[u8]) -> Option<(TokenKind, usize)>
    ensures { IsLexemePrefix string_part text.now result }
{
    let end = first_index(b'"', text)?;
    Some((TokenKind::Text, end + 1))
}

/// Returns whether all of the octets are hexadecimal digits.
fn is_hexadecimal(digits: &[u8]) -> bool
    ensures { result ≡ list_all is_ascii_hexdigit digits.now }
{
    digits.iter().all(|digit| digit.is_ascii_hexdigit())
}

/// Returns whether each of the octets is a 0 or a 1.
fn is_binary(digits: &[u8]) -> bool
    ensures { result ≡ list_all is_binary_digit digits.now }
{
    digits.iter().all(|digit| *digit == b'0' || *digit == b'1')
}

/// Returns the kind of the literal with these digits and this letter after the closing quote, or
/// `None` if no literal has them.
fn literal_kind(digits: &[u8], letter: u8) -> Option<TokenKind>
    ensures { option_map lexeme result ≡ literal_of digits.now letter }
{
    match letter {
        b'H' | b'h' if is_hexadecimal(digits) => Some(TokenKind::Hex),
        b'B' | b'b' if is_binary(digits) => Some(TokenKind::Binary),
        _ => None,
    }
}

/// Returns the kind and the length of the rest of a literal, its letter included. `text` begins
/// after the opening quote. Returns `None` if `text` doesn't begin with the rest of a literal.
fn literal_rest(text: &[u8]) -> Option<(TokenKind, usize)>
    ensures { IsLexemePrefix literal_part text.now result }
{
    let end = first_index(b'\'', text)?;
    if end + 1 == text.len() {
        return None;
    }
    let (digits, _) = text.split_at(end);
    let kind = literal_kind(digits, text[end + 1])?;
    Some((kind, end + 2))
}

/// Returns the kind and the length of the rest of a number. `text` begins after the hyphen.
/// Returns `None` if no digit follows.
fn number_rest(text: &[u8]) -> Option<(TokenKind, usize)>
    ensures { IsLexemePrefix hyphen_part text.now result }
{
    let len = digits_len(text);
    if len == 0 {
        None
    } else {
        Some((TokenKind::Number, len))
    }
}

/// Returns the longest symbol that the symbol `kind` makes, by itself or with octets after it, and
/// how many octets of `text` belong to it. `text` begins after the symbol `kind`.
fn symbol_rest(kind: TokenKind, text: &[u8]) -> (TokenKind, usize)
    ensures { IsPartPrefix (symbol_part kind) text.now (lexeme result.0) result.1 }
{
    match (kind, text) {
        (TokenKind::Colon, [b':', b'=', ..]) => (TokenKind::Assign, 2),
        (TokenKind::Dot, [b'.', ..]) => (TokenKind::Range, 1),
        _ => (kind, 0),
    }
}

/// Returns the kind of the longest lexeme that begins with an octet of `class`, and how many
/// octets of `text` belong to it. `text` begins after that octet. Returns `None` if there is no
/// such lexeme.
fn lexeme_rest(class: Class, text: &[u8]) -> Option<(TokenKind, usize)>
    ensures { IsLexemePrefix (part_in class) text.now result }
{
    match class {
        Class::Lowercase => Some((TokenKind::Lower, word_rest_len(text))),
        Class::Uppercase => Some((TokenKind::Upper, word_rest_len(text))),
        Class::Digit => Some((TokenKind::Number, digits_len(text))),
        Class::Hyphen => number_rest(text),
        Class::Quote => string_rest(text),
        Class::Apostrophe => literal_rest(text),
        Class::Symbol(kind) => Some(symbol_rest(kind, text)),
        Class::Blank | Class::Other => None,
    }
}

/// Returns the kind and the length of the longest lexeme at the start of `text`, or `None` if no
/// lexeme begins there.
pub fn lexeme_at(text: &[u8]) -> Option<(TokenKind, usize)>
    ensures { IsLexemePrefix part_of text.now result }
{
    let (first, rest) = text.split_first()?;
    let (kind, len) = lexeme_rest(class_of_octet(*first), rest)?;
    Some((kind, len + 1))
}

/// Skips spaces and tabs from offset `from` on, and returns the offset after those skipped. More
/// spaces and tabs may follow.
fn blanks_end(text: &[u8], from: usize) -> usize
    requires { from ≤ length text.now }
    ensures { ArePassedBetween is_space_or_tab text.now from result }
{
    // The caller has skipped one space. If another octet than a space follows, as mostly between
    // two lexemes of a line, a load would skip little or nothing.
    if from < text.len() && text[from] != b' ' {
        return from;
    }
    let mut n = from;
    'loads: while text.len() - n >= LANES {
        let run = blank_run(text, n);
        n += run;
        if run < LANES {
            return n;
        }
    }
    n
}

/// Returns the length of the gaps (blank octets and comments) at the start of `text`, and the
/// number of newlines in them.
pub fn gaps_at(text: &[u8]) -> (usize, usize)
    ensures within { result.0 ≤ length text.now }
    ensures lines { result.1 ≤ result.0 }
    ensures skips { Skips text.now result.0 result.1 }
    ensures all { HasNoGap (drop result.0 text.now) }
{
    let mut n = 0;
    let mut lines = 0;
    'gaps: while n < text.len() {
        // Most octets of gaps are spaces.
        if text[n] == b' ' {
            n = blanks_end(text, n + 1);
        } else if text[n] == b'\n' {
            lines += 1;
            n += 1;
        } else if is_blank(text[n]) {
            n += 1;
        } else if text[n] == b'-' && n + 1 < text.len() && text[n + 1] == b'-' {
            n += 2 + comment_rest_len(&text[n + 2..]);
        } else {
            break;
        }
    }
    (n, lines)
}

/// Returns how many lines end in `octets`, a lexeme of this kind. Of all lexemes, only strings can
/// contain a newline.
#[tactic(auto, using(crate::proofs::PartLaws::one_line))]
pub fn lines_in(kind: TokenKind, octets: &[u8]) -> usize
    ensures count { IsLexeme kind octets.now → result ≡ newlines octets.now }
    ensures within { result ≤ length octets.now }
{
    match kind {
        TokenKind::Text => newlines_in(octets),
        _ => 0,
    }
}

/// Returns the number of newlines in `text`.
#[tactic(auto, using(crate::proofs::FirstIndex::each_newline))]
fn newlines_in(text: &[u8]) -> usize
    ensures count { result ≡ newlines text.now }
    ensures within { result ≤ length text.now }
{
    // The iterator's own `count` looks at each octet; this goes from one newline to the next.
    Iterator::count(memchr_iter(b'\n', text))
}

/// Returns whether `text` begins with a `"` or `'`, and doesn't contain the same quote again.
pub fn is_open(text: &[u8]) -> bool
    ensures { result ≡ is_open_string text.now }
{
    match text {
        [quote @ (b'"' | b'\''), rest @ ..] => first_index(*quote, rest).is_none(),
        _ => false,
    }
}
