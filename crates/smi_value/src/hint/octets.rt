//! Shows octets by a display hint: its specs are applied one after the other, and the last one is
//! repeated while octets remain.
ghost use Rattle.std.specs.Prelude.{◌≡◌, ◌≢◌, ◌<◌, ◌≤◌, List, ℕ, [], ◌++◌, length, drop, take};
ghost use Rattle.std.specs.Prelude.{if◌then◌else◌, true, decimal, ◌∷◌, false, ◌+◌, ◌*◌};
ghost use Rattle.std.specs.{Fmt.digits, List.flat_map};
ghost use Rattle.snmp_io.specs.Draft.{Adds};
ghost use Rattle.smi_value.specs.hint.Spec.{IsFirstSpec, IsOctetHint, AreSpecs, most_octets};
ghost use Rattle.smi_value.specs.hint.Pieces.{IsCut, IsGroup, ShowsOctets, last_mark, mark_before};
ghost use Rattle.smi_value.specs.hint.Pieces.{number_of_octets, piece_text, pieces_text};
ghost use Rattle.smi_value.specs.hint.Pieces.{single_text, marked_text, singles_text};
ghost use Rattle.smi_value.specs.declared.hint.spec.Spec.{Spec};

use crate::hint::number::{append_base_8, append_base_16, digit};
use crate::hint::spec::{OctetFormat, Spec, first_spec};
use snmp_io::Draft;

/// Appends `octets` as `hint` shows them. `first` is the first spec of `hint`, and `after` is the
/// text of `hint` after that spec.
pub(crate) fn append_octets(
    draft: &mut Draft,
    hint: &[u8],
    first: Spec,
    after: &[u8],
    octets: &[u8],
)
    requires { (specs : List Spec) × IsOctetHint hint.now specs
        × IsFirstSpec hint.now first after.now }
    ensures { (text : List ℕ) × ShowsOctets hint.now octets.now text
        × Adds draft.old text draft.new }
{
    let mut spec = first;
    let mut ahead = after;
    let mut left = octets;
    'groups: while !left.is_empty() {
        // The last spec of a hint often shows one octet at a time. One call then appends all the
        // octets that remain.
        if ahead.is_empty() && spec.is_single() {
            append_singles(draft, spec.format, spec.last_mark(), left);
            return;
        }
        left = append_group(draft, &spec, left);
        if !ahead.is_empty() {
            (spec, ahead) = next_spec(ahead);
        }
    }
}

/// Appends octets one by one, with `mark`, if there is one, before each but the first. An address
/// of six octets takes less than half of the instructions of six calls of [`append_group`].
fn append_singles(draft: &mut Draft, format: OctetFormat, mark: Option<u8>, octets: &[u8])
    ensures { Adds draft.old (singles_text format mark octets.now) draft.new }
{
    match octets {
        [] => {}
        [first, more @ ..] => {
            append_single(draft, format, *first);
            append_others(draft, format, mark, more);
        }
    }
}

/// Appends octets one by one, with `mark`, if there is one, before each.
fn append_others(draft: &mut Draft, format: OctetFormat, mark: Option<u8>, octets: &[u8])
    ensures { Adds draft.old (flat_map (marked_text format mark) octets.now) draft.new }
{
    'octets: for octet in octets {
        append_marked(draft, format, mark, *octet);
    }
}

/// Appends `mark`, if there is one, and an octet. In the most frequent formats, base 16 and base
/// 10, one call appends both.
fn append_marked(draft: &mut Draft, format: OctetFormat, mark: Option<u8>, octet: u8)
    ensures { Adds draft.old (marked_text format mark octet) draft.new }
{
    match (format, mark) {
        (OctetFormat::Hexadecimal, Some(mark)) => append_marked_hexadecimal(draft, mark, octet),
        (OctetFormat::Decimal, Some(mark)) => append_marked_decimal(draft, mark, octet),
        (_, Some(mark)) => {
            draft.octet(mark);
            append_single(draft, format, octet);
        }
        (_, None) => append_single(draft, format, octet),
    }
}

/// Appends `mark`, and `octet` in base 16.
fn append_marked_hexadecimal(draft: &mut Draft, mark: u8, octet: u8)
    ensures { Adds draft.old (mark ∷ digits 16 false octet) draft.new }
{
    if octet < 16 {
        draft.octets(&[mark, digit(octet)]);
    } else {
        draft.octets(&[mark, digit(octet / 16), digit(octet % 16)]);
    }
}

/// Appends `mark`, and `octet` in base 10.
pub(crate) fn append_marked_decimal(draft: &mut Draft, mark: u8, octet: u8)
    ensures { Adds draft.old (mark ∷ decimal octet) draft.new }
{
    if octet < 10 {
        draft.octets(&[mark, b'0' + octet]);
    } else if octet < 100 {
        draft.octets(&[mark, b'0' + octet / 10, b'0' + octet % 10]);
    } else {
        draft.octets(&[
            mark,
            b'0' + octet / 100,
            b'0' + octet / 10 % 10,
            b'0' + octet % 10,
        ]);
    }
}

/// Appends one octet in the format `format`.
fn append_single(draft: &mut Draft, format: OctetFormat, octet: u8)
    ensures { Adds draft.old (single_text format octet) draft.new }
{
    match format {
        OctetFormat::Hexadecimal => append_octet_hexadecimal(draft, octet),
        OctetFormat::Decimal => draft.number(u64::from(octet)),
        OctetFormat::Octal => append_base_8(draft, u64::from(octet)),
        OctetFormat::Text => draft.octet(octet),
    }
}

/// Appends an octet in base 16, without a leading zero.
fn append_octet_hexadecimal(draft: &mut Draft, octet: u8)
    ensures { Adds draft.old (digits 16 false octet) draft.new }
{
    if octet < 16 {
        draft.octet(digit(octet));
    } else {
        draft.octets(&[digit(octet / 16), digit(octet % 16)]);
    }
}

/// Returns the first spec of `text`, which must begin with one, and the rest of the text.
fn next_spec(text: &[u8]) -> (Spec, &[u8])
    requires { (spec : Spec) × (rest : List ℕ) × IsFirstSpec text.now spec rest }
    ensures first { IsFirstSpec text.now result.0 result.1.now }
    ensures shorter { length result.1.now < length text.now }
{
    match first_spec(text) {
        Some(first) => first,
        None => unreachable!(),
    }
}

/// Appends what one use of `spec` shows, and returns the octets that remain. If `spec` has a `*`,
/// the first octet is the number of times that `spec` is applied to the octets after it.
fn append_group<'a>(draft: &mut Draft, spec: &Spec, octets: &'a [u8]) -> &'a [u8]
    requires some { octets.now ≢ [] }
    requires fits { spec.now.length ≤ most_octets spec.now.format }
    ensures { (pieces : List (List ℕ)) × IsGroup spec.now pieces octets.now result.now
        × Adds draft.old (pieces_text spec.now pieces result.now) draft.new }
{
    match octets {
        [count, body @ ..] if spec.is_counted => {
            append_pieces(draft, spec, usize::from(*count), body)
        }
        _ => append_pieces(draft, spec, 1, octets),
    }
}

/// Appends what `spec` shows if it is applied `times` times, or until no octets remain, and returns
/// the octets that remain.
fn append_pieces<'a>(draft: &mut Draft, spec: &Spec, times: usize, octets: &'a [u8]) -> &'a [u8]
    requires { spec.now.length ≤ most_octets spec.now.format }
    ensures { (pieces : List (List ℕ))
        × IsCut spec.now.length times pieces octets.now result.now
        × Adds draft.old (pieces_text spec.now pieces result.now) draft.new }
{
    if spec.length == 0 && spec.separator.is_none() && times > 1 {
        // These applications take no octets and put nothing between each other, so one of them
        // appends the same text as all.
        append_cut(draft, spec, 1, octets)
    } else if spec.length == 1 {
        append_cut_singles(draft, spec, times, octets)
    } else {
        append_cut(draft, spec, times, octets)
    }
}

/// Does what [`append_pieces`] does, for a spec of length 1.
fn append_cut_singles<'a>(
    draft: &mut Draft,
    spec: &Spec,
    times: usize,
    octets: &'a [u8],
) -> &'a [u8]
    requires { spec.now.length ≡ 1 }
    ensures { (pieces : List (List ℕ))
        × IsCut spec.now.length times pieces octets.now result.now
        × Adds draft.old (pieces_text spec.now pieces result.now) draft.new }
{
    let (these, rest) = octets.split_at(octets.len().min(times));
    if these.is_empty() {
        return rest;
    }
    append_singles(draft, spec.format, spec.separator, these);
    append_mark(draft, spec.last_mark(), rest);
    rest
}

/// Does what [`append_pieces`] does, one application after the other.
fn append_cut<'a>(draft: &mut Draft, spec: &Spec, times: usize, octets: &'a [u8]) -> &'a [u8]
    requires { spec.now.length ≤ most_octets spec.now.format }
    ensures { (pieces : List (List ℕ))
        × IsCut spec.now.length times pieces octets.now result.now
        × Adds draft.old (pieces_text spec.now pieces result.now) draft.new }
{
    let mut ahead = times;
    let mut left = octets;
    'pieces: while ahead > 0 && !left.is_empty() {
        ahead -= 1;
        left = append_piece(draft, spec, ahead == 0, left);
    }
    left
}

/// Appends what one application of `spec` shows, and returns the octets that remain. If any
/// remain, it then appends `spec.last_mark()` if `is_last`, otherwise `spec.separator`; either may
/// be `None`.
fn append_piece<'a>(draft: &mut Draft, spec: &Spec, is_last: bool, octets: &'a [u8]) -> &'a [u8]
    requires { spec.now.length ≤ most_octets spec.now.format }
    ensures rest { result.now ≡ drop spec.now.length octets.now }
    ensures adds { let mark = if is_last then last_mark spec.now else spec.now.separator in
        let piece = take spec.now.length octets.now in
        Adds draft.old (piece_text spec.now.format piece ++ mark_before mark result.now) draft.new }
{
    let (piece, rest) = octets.split_at(octets.len().min(usize::from(spec.length)));
    append_formatted(draft, spec.format, piece);
    let mark = if is_last {
        spec.last_mark()
    } else {
        spec.separator
    };
    append_mark(draft, mark, rest);
    rest
}

/// Appends `mark`, if there is one, unless `rest`, the octets that remain, is empty.
#[tactic(auto, using(crate::proofs::Drafts::adds_none))]
fn append_mark(draft: &mut Draft, mark: Option<u8>, rest: &[u8])
    ensures { Adds draft.old (mark_before mark rest.now) draft.new }
{
    match mark {
        Some(octet) if !rest.is_empty() => draft.octet(octet),
        _ => {}
    }
}

/// Appends `piece`, the octets that one application of a spec takes, in the format `format`.
#[tactic(auto, using(crate::proofs::Drafts::adds_none))]
fn append_formatted(draft: &mut Draft, format: OctetFormat, piece: &[u8])
    requires { length piece.now ≤ most_octets format }
    ensures { Adds draft.old (piece_text format piece.now) draft.new }
{
    match piece {
        [] => return,
        [octet] => return append_single(draft, format, *octet),
        _ => {}
    }
    match format {
        OctetFormat::Hexadecimal => append_hexadecimal(draft, piece),
        OctetFormat::Decimal => draft.number(number_of(piece)),
        OctetFormat::Octal => append_base_8(draft, number_of(piece)),
        OctetFormat::Text => draft.octets(piece),
    }
}

/// Appends octets as one number in base 16.
fn append_hexadecimal(draft: &mut Draft, octets: &[u8])
    requires { length octets.now ≤ 8 }
    ensures { Adds draft.old (digits 16 false (number_of_octets octets.now)) draft.new }
{
    match octets {
        // Hints of IPv6 addresses show two octets at a time.
        [high, low] if *high > 0 => append_pair(draft, *high, *low),
        _ => append_base_16(draft, number_of(octets)),
    }
}

/// Appends two octets, the first above 0, as one number in base 16.
fn append_pair(draft: &mut Draft, high: u8, low: u8)
    requires { 0 < high }
    ensures { Adds draft.old (digits 16 false (high * 256 + low)) draft.new }
{
    let third = digit(low / 16);
    let last = digit(low % 16);
    if high < 16 {
        let second = digit(high);
        draft.octets(&[second, third, last]);
    } else {
        let first = digit(high / 16);
        let second = digit(high % 16);
        draft.octets(&[first, second, third, last]);
    }
}

/// Returns up to eight octets as one number, the most significant octet first.
fn number_of(octets: &[u8]) -> u64
    requires { length octets.now ≤ 8 }
    ensures { result ≡ number_of_octets octets.now }
{
    let mut number: u64 = 0;
    'octets: for octet in octets {
        number = number * 256 + u64::from(*octet);
    }
    number
}
