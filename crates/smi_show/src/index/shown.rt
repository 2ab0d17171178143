//! The text of an instance: numbers with a dot before each, or the values of an index with strings
//! in quotes.
ghost use Rattle.std.specs.Prelude.{◌≡◌, ◌≢◌, ℕ, ◌<◌, ◌≤◌, ◌^◌, ◌∷◌, ◌++◌, [], List, All, length};
ghost use Rattle.std.specs.Prelude.{codes, decimal, IsTrue, Option, Some, None, true, false, take};
ghost use Rattle.std.specs.Prelude.{◌+◌, ◌*◌};
ghost use Rattle.std.specs.{Bool.OnTrue, Bool.OnFalse, Option.is_some};
ghost use Rattle.std.specs.List.{flat_map, list_all};
ghost use Rattle.snmp_io.specs.Draft.{Adds};
ghost use Rattle.smi_tree.specs.declared.columns.index_part.IndexPart.{IndexPart};
ghost use Rattle.smi_show.specs.private.index.IndexValues.{has_text, instance_pieces, values_of};
ghost use Rattle.smi_show.specs.index.Pieces.{IsPiece, as_numbers, as_text, index_pieces, is_plain};
ghost use Rattle.smi_show.specs.index.Pieces.{is_quotable, is_shown_text, is_text, piece_numbers};
ghost use Rattle.smi_show.specs.index.Pieces.{shown_pieces, value_pieces};
ghost use Rattle.smi_show.specs.private.index.Digits.{three_digits};

use crate::index::{read_part, reads};
use smi_tree::{Extent, IndexPart};
use snmp_io::Draft;

/// The size of the buffer of octets to append. It has room for any eleven numbers.
const ROOM: usize = 128;

/// The texts of the numbers below 256, four octets each: a dot, the digits, and blanks. With them
/// no digit is computed, and no branch depends on the number of digits.
const SMALL: &[u8] = b"\
    .0  .1  .2  .3  .4  .5  .6  .7  .8  .9  .10 .11 .12 .13 .14 .15 \
    .16 .17 .18 .19 .20 .21 .22 .23 .24 .25 .26 .27 .28 .29 .30 .31 \
    .32 .33 .34 .35 .36 .37 .38 .39 .40 .41 .42 .43 .44 .45 .46 .47 \
    .48 .49 .50 .51 .52 .53 .54 .55 .56 .57 .58 .59 .60 .61 .62 .63 \
    .64 .65 .66 .67 .68 .69 .70 .71 .72 .73 .74 .75 .76 .77 .78 .79 \
    .80 .81 .82 .83 .84 .85 .86 .87 .88 .89 .90 .91 .92 .93 .94 .95 \
    .96 .97 .98 .99 .100.101.102.103.104.105.106.107.108.109.110.111\
    .112.113.114.115.116.117.118.119.120.121.122.123.124.125.126.127\
    .128.129.130.131.132.133.134.135.136.137.138.139.140.141.142.143\
    .144.145.146.147.148.149.150.151.152.153.154.155.156.157.158.159\
    .160.161.162.163.164.165.166.167.168.169.170.171.172.173.174.175\
    .176.177.178.179.180.181.182.183.184.185.186.187.188.189.190.191\
    .192.193.194.195.196.197.198.199.200.201.202.203.204.205.206.207\
    .208.209.210.211.212.213.214.215.216.217.218.219.220.221.222.223\
    .224.225.226.227.228.229.230.231.232.233.234.235.236.237.238.239\
    .240.241.242.243.244.245.246.247.248.249.250.251.252.253.254.255\
    ";

/// Appends `numbers`, with a dot before each. A walk that prints names in numbers does this for
/// each row, so the digits are written to a buffer and appended together.
pub fn numbers_text(numbers: &[u32], draft: &mut Draft)
    ensures { Adds draft.old (shown_pieces (as_numbers numbers.now)) draft.new }
{
    // Most names fit into the buffer.
    let mut room = [0; ROOM];
    let prefix = put_leading_numbers(&mut room, numbers);
    let mut filled = 2 * prefix;
    'numbers: for at in prefix..numbers.len() {
        filled = with_room(&room, filled, draft);
        filled = put_number(&mut room, filled, numbers[at]);
    }
    draft.octets(&room[..filled]);
}

/// Appends the numbers after a column by the parts of its index. An OCTET STRING that isn't empty
/// and whose octets may all appear between quotes is shown as a text, any other value as numbers;
/// a dot precedes each text and number. If the index doesn't read the whole list, appends all of
/// it as numbers.
pub fn index_text(parts: &[IndexPart], numbers: &[u32], draft: &mut Draft)
    ensures { let pieces = instance_pieces (Some parts.now) numbers.now in
        Adds draft.old (shown_pieces pieces) draft.new }
{
    if is_shown_by_values(parts, numbers) {
        values_text(parts, numbers, draft);
    } else {
        numbers_text(numbers, draft);
    }
}

/// The pieces that show a list of numbers stand for exactly this list. If each number is below
/// 2^32, each piece may be a part of a name.
///
/// A law: the call does nothing, and its caller may use what it ensures.
#[tactic(auto, using(crate::proofs::Pieces::whole, crate::proofs::Pieces::each))]
#[inline]
pub fn pieces_represent_numbers()
    ensures whole { (index : Option (List IndexPart)) (numbers : List ℕ)
        → flat_map piece_numbers (instance_pieces index numbers) ≡ numbers }
    ensures each { (index : Option (List IndexPart)) (numbers : List ℕ)
        → All (λ n. n < 2 ^ 32) numbers → All IsPiece (instance_pieces index numbers) }
{}

/// Returns whether the index reads all of `numbers` and one of the values may be shown as a text.
/// If not, `numbers` are shown as numbers only.
fn is_shown_by_values(parts: &[IndexPart], numbers: &[u32]) -> bool
    ensures read { OnTrue result (is_some (values_of parts.now numbers.now) ≡ true) }
    ensures numbers { let pieces = instance_pieces (Some parts.now) numbers.now in
        OnFalse result (as_numbers numbers.now ≡ pieces) }
{
    // If no part may be shown as a text, nothing has to be read.
    !are_few_and_plain(parts, numbers.len()) && reads_some_text(parts, numbers)
}

/// Returns whether there are at most `most` parts, and all are shown as numbers, whatever their
/// values.
fn are_few_and_plain(parts: &[IndexPart], most: usize) -> bool
    ensures few { OnTrue result (length parts.now ≤ most) }
    ensures plain { OnTrue result (list_all is_plain parts.now ≡ true) }
{
    // With more parts than numbers, reading can end early, while testing all parts takes longer.
    parts.len() <= most && are_plain(parts)
}

/// Returns whether all parts are shown as numbers, whatever their values.
fn are_plain(parts: &[IndexPart]) -> bool
    ensures { result ≡ list_all is_plain parts.now }
{
    parts.iter().all(|part| is_plain(*part))
}

/// Returns whether `part` is shown as numbers, whatever its value.
fn is_plain(part: IndexPart) -> bool
    ensures { result ≡ is_plain part }
{
    match part {
        IndexPart::Text(_) => false,
        _ => true,
    }
}

/// Returns whether the parts read all of `numbers`, and one of the values may be shown as a text.
fn reads_some_text(parts: &[IndexPart], numbers: &[u32]) -> bool
    ensures read { OnTrue result (is_some (values_of parts.now numbers.now) ≡ true) }
    ensures none { OnFalse result (has_text parts.now numbers.now ≡ false) }
{
    let mut left = numbers;
    'parts: for at in 0..parts.len() {
        let Some((value, rest)) = read_part(parts[at], left) else {
            return false;
        };
        if may_be_text(parts[at], value) {
            return reads(&parts[at + 1..], rest);
        }
        left = rest;
    }
    false
}

/// Returns whether `part` is an OCTET STRING and `value` begins with an octet that may appear
/// between quotes. Otherwise `value` isn't shown as a text.
fn may_be_text(part: IndexPart, value: &[u32]) -> bool
    ensures { OnFalse result (is_text part value.now ≡ false) }
{
    match (part, value) {
        (IndexPart::Text(_), [first, ..]) => is_quotable(*first),
        _ => false,
    }
}

/// Appends the values that the parts read from `numbers`, one after the other.
fn values_text(parts: &[IndexPart], numbers: &[u32], draft: &mut Draft)
    ensures { (values : List (List ℕ)) → values_of parts.now numbers.now ≡ Some values
        → Adds draft.old (shown_pieces (index_pieces parts.now values)) draft.new }
{
    let mut left = numbers;
    'parts: for part in parts {
        let Some((value, rest)) = read_part(*part, left) else {
            return;
        };
        value_text(*part, value, draft);
        left = rest;
    }
}

/// Appends `value`, a value of `part`: as a text in quotes, or as the numbers that encode it.
fn value_text(part: IndexPart, value: &[u32], draft: &mut Draft)
    ensures { Adds draft.old (shown_pieces (value_pieces part value.now)) draft.new }
{
    match part {
        IndexPart::Text(extent) if is_shown_text(value) => quoted_text(extent, value, draft),
        IndexPart::Text(Extent::Counted)
        | IndexPart::Octets(Extent::Counted)
        | IndexPart::Identifier => {
            number_text(value.len() as u64, draft);
            numbers_text(value, draft);
        }
        _ => numbers_text(value, draft),
    }
}

/// Appends a dot and `number`.
fn number_text(number: u64, draft: &mut Draft)
    ensures { Adds draft.old (codes "." ++ decimal number) draft.new }
{
    draft.octet(b'.');
    draft.number(number);
}

/// Writes leading numbers of one digit, each after a dot, to the start of `room`: four at a time
/// and at most 60. Returns how many numbers it wrote. Most names begin with such numbers.
#[tactic(auto, using(std::proofs::lemmas::Bool::OnTrue_at, crate::proofs::LeadingNumbers::four_digits_more))]
#[inline(always)]
fn put_leading_numbers(room: &mut [u8; ROOM], numbers: &[u32]) -> usize
    ensures prefix { result ≤ length numbers.now }
    ensures within { 2 * result ≤ 128 }
    ensures text { let prefix = take result numbers.now in
        take (2 * result) room.new ≡ shown_pieces (as_numbers prefix) }
{
    let mut prefix = 0;
    'fours: while prefix <= 56 && numbers.len() - prefix >= 4 {
        let first = numbers[prefix];
        let second = numbers[prefix + 1];
        let third = numbers[prefix + 2];
        let fourth = numbers[prefix + 3];
        if !are_digits(first, second, third, fourth) {
            return prefix;
        }
        put_digits(room, 2 * prefix, first, second);
        put_digits(room, 2 * prefix + 4, third, fourth);
        prefix += 4;
    }
    prefix
}

/// Returns whether all four numbers have one digit.
#[inline(always)]
fn are_digits(first: u32, second: u32, third: u32, fourth: u32) -> bool
    ensures { OnTrue result ((first < 10) × (second < 10) × (third < 10) × (fourth < 10)) }
{
    first < 10 && second < 10 && third < 10 && fourth < 10
}

/// Writes `first` and `second`, two numbers of one digit, each after a dot, after the first
/// `filled` octets of `room`.
#[inline(always)]
fn put_digits(room: &mut [u8; ROOM], filled: usize, first: u32, second: u32)
    requires room { filled ≤ 124 }
    requires first { first < 10 }
    requires second { second < 10 }
    ensures { take (filled + 4) room.new ≡ take filled room.old
        ++ 46 ∷ (48 + first) ∷ 46 ∷ (48 + second) ∷ [] }
{
    put(room, filled, b'.');
    put(room, filled + 1, b'0' + first as u8);
    put(room, filled + 2, b'.');
    put(room, filled + 3, b'0' + second as u8);
}

/// Appends the first `end` octets of `room` to `draft` if fewer than 11 octets follow them, which
/// may be too few for one more number. Returns how many octets of `room` are filled then: 0 or
/// `end`.
#[inline(always)]
fn with_room(room: &[u8; ROOM], end: usize, draft: &mut Draft) -> usize
    requires { end ≤ 128 }
    ensures room { result ≤ 117 }
    ensures moved { (text : List ℕ) × Adds draft.old text draft.new
        × (text ++ take result room.now ≡ take end room.now) }
{
    if end <= ROOM - 11 {
        return end;
    }
    draft.octets(&room[..end]);
    0
}

/// Writes a dot and `number` after the first `filled` octets of `room`, and returns how many octets
/// of `room` are filled then.
#[inline(always)]
fn put_number(room: &mut [u8; ROOM], filled: usize, number: u32) -> usize
    requires { filled ≤ 117 }
    ensures within { result ≤ filled + 11 }
    ensures text { take result room.new ≡ take filled room.old ++ (codes "." ++ decimal number) }
{
    if number >= 1000 {
        put_long(room, filled, number)
    } else if number < 256 {
        // Most numbers are octets of addresses, or as small.
        put_small(room, filled, number)
    } else {
        put_short(room, filled, number)
    }
}

/// Does what [`put_number`] does, for a number of four to ten digits.
#[tactic(auto, using(crate::proofs::Digits::after))]
#[inline(never)]
fn put_long(room: &mut [u8; ROOM], filled: usize, number: u32) -> usize
    requires room { filled ≤ 117 }
    requires long { 1000 ≤ number }
    ensures within { result ≤ filled + 11 }
    ensures text { take result room.new ≡ take filled room.old ++ (codes "." ++ decimal number) }
{
    if number < 1_000_000 {
        return put_medium(room, filled, number);
    }
    let prefix = put_medium(room, filled, number / 1_000_000);
    let more = put_three(room, prefix, number / 1000 % 1000);
    put_three(room, more, number % 1000)
}

/// Does what [`put_number`] does, for a number of up to six digits.
#[tactic(auto, using(crate::proofs::Digits::after))]
fn put_medium(room: &mut [u8; ROOM], filled: usize, number: u32) -> usize
    requires room { filled ≤ 117 }
    requires medium { number < 1000000 }
    ensures within { result ≤ filled + 7 }
    ensures few { number < 10000 → result ≤ filled + 5 }
    ensures text { take result room.new ≡ take filled room.old ++ (codes "." ++ decimal number) }
{
    if number < 1000 {
        return put_short(room, filled, number);
    }
    let prefix = put_short(room, filled, number / 1000);
    put_three(room, prefix, number % 1000)
}

/// Does what [`put_number`] does, for a number of up to three digits.
#[inline(always)]
fn put_short(room: &mut [u8; ROOM], filled: usize, number: u32) -> usize
    requires room { filled ≤ 117 }
    requires short { number < 1000 }
    ensures within { result ≤ filled + 4 }
    ensures one { number < 10 → result ≤ filled + 2 }
    ensures text { take result room.new ≡ take filled room.old ++ (codes "." ++ decimal number) }
{
    put(room, filled, b'.');
    if number < 10 {
        put(room, filled + 1, b'0' + number as u8);
        return filled + 2;
    }
    let ones = b'0' + (number % 10) as u8;
    let tens = number / 10;
    if tens < 10 {
        put(room, filled + 1, b'0' + tens as u8);
        put(room, filled + 2, ones);
        return filled + 3;
    }
    put(room, filled + 1, b'0' + (tens / 10) as u8);
    put(room, filled + 2, b'0' + (tens % 10) as u8);
    put(room, filled + 3, ones);
    filled + 4
}

/// Does what [`put_number`] does, for a number below 256.
#[inline(always)]
fn put_small(room: &mut [u8; ROOM], filled: usize, number: u32) -> usize
    requires room { filled ≤ 117 }
    requires small { number < 256 }
    ensures within { result ≤ filled + 4 }
    ensures text { take result room.new ≡ take filled room.old ++ (codes "." ++ decimal number) }
{
    // All four octets are written. The blanks don't count as filled: the next number overwrites
    // them.
    let at = number as usize * 4;
    let (first, second, third, fourth) = (SMALL[at], SMALL[at + 1], SMALL[at + 2], SMALL[at + 3]);
    put(room, filled, first);
    put(room, filled + 1, second);
    put(room, filled + 2, third);
    put(room, filled + 3, fourth);
    filled + small_len(number)
}

/// Returns the length of `number`, which is below 256, with a dot before it.
#[tactic(auto, using(crate::proofs::SmallNumbers::small_len_is))]
#[inline(always)]
fn small_len(number: u32) -> usize
    requires { number < 256 }
    ensures within { result ≤ 4 }
    ensures length { result ≡ length (codes "." ++ decimal number) }
{
    2 + usize::from(number >= 10) + usize::from(number >= 100)
}

/// Writes `number` as three of the digits of a longer number, with leading zeros, and returns how
/// many octets of `room` are filled then.
#[inline(always)]
fn put_three(room: &mut [u8; ROOM], filled: usize, number: u32) -> usize
    requires room { filled ≤ 125 }
    requires three { number < 1000 }
    ensures within { result ≡ filled + 3 }
    ensures text { take result room.new ≡ take filled room.old ++ three_digits number }
{
    put(room, filled, b'0' + (number / 100) as u8);
    put(room, filled + 1, b'0' + (number / 10 % 10) as u8);
    put(room, filled + 2, b'0' + (number % 10) as u8);
    filled + 3
}

/// Writes `octet` at the offset `offset`.
#[inline(always)]
fn put(room: &mut [u8; ROOM], offset: usize, octet: u8)
    requires { offset < 128 }
    ensures { take (offset + 1) room.new ≡ take offset room.old ++ octet ∷ [] }
{
    room[offset] = octet;
}

/// Appends a dot and a string in quotes: double ones if its encoding begins with its length,
/// otherwise single ones.
fn quoted_text(extent: Extent, value: &[u32], draft: &mut Draft)
    requires { is_shown_text value.now ≡ true }
    ensures { Adds draft.old (shown_pieces (as_text extent value.now ∷ [])) draft.new }
{
    let quote = match extent {
        Extent::Counted => b'"',
        Extent::Fixed(_) | Extent::Implied => b'\'',
    };
    draft.octets(&[b'.', quote]);
    octets_text(value, draft);
    draft.octet(quote);
}

/// Appends the numbers of `value` as octets.
fn octets_text(value: &[u32], draft: &mut Draft)
    requires { list_all is_quotable value.now ≡ true }
    ensures { Adds draft.old value.now draft.new }
{
    'octets: for octet in value {
        draft.octet(*octet as u8);
    }
}

/// Returns whether `value` isn't empty and each of its octets may appear between quotes.
fn is_shown_text(value: &[u32]) -> bool
    ensures { result ≡ is_shown_text value.now }
{
    !value.is_empty() && are_quotable(value)
}

/// Returns whether each octet may appear between quotes.
fn are_quotable(value: &[u32]) -> bool
    ensures { result ≡ list_all is_quotable value.now }
{
    value.iter().all(|octet| is_quotable(*octet))
}

/// Returns whether `octet` may appear between quotes: it is printable, and neither a quote nor a
/// backslash.
pub fn is_quotable(octet: u32) -> bool
    ensures { result ≡ is_quotable octet }
{
    32 <= octet && octet <= 126 && !(octet == 34 || octet == 39 || octet == 92)
}
