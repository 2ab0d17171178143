//! The letters that the tools take after `-O`. They say how names and values are shown.
ghost use Rattle.std.specs.Prelude.{◌≡◌, ◌↔◌, [], None, Some, true, false, IsOk, IfOk, IfErr};
ghost use Rattle.std.specs.Prelude.{IfSome, IfNone};

/// How a name is shown. The deepest node of a name is the node of the longest prefix of the name
/// that has one in the MIB tree. A name without such a node is shown in numbers.
#[derive(Clone, Copy, Debug, PartialEq, Eq)]
pub enum NameForm {
    /// `n`: the numbers, with a dot before each.
    Numeric,
    /// `f`: for each number down to the deepest node, a dot and the label of the node there, or the
    /// number if no node is there; then the numbers after the deepest node.
    Full,
    /// `s`: the label of the deepest node, then the numbers after the node.
    Label,
    /// `S`: the module and the label of the deepest node, then the numbers after the node. The
    /// default.
    ModuleLabel,
}

/// Whether a value is shown after the word of its type, such as `INTEGER: `.
#[derive(Clone, Copy, Debug, PartialEq, Eq)]
pub enum TypeForm {
    /// The word is shown. The default.
    Typed,
    /// `Q`: the word is left out.
    Untyped,
    /// `q`: the word is left out, and a line has only a blank between name and value.
    Quick,
}

/// How a string without a display hint is shown, if it isn't empty.
#[derive(Clone, Copy, Debug, PartialEq, Eq)]
pub enum StringForm {
    /// As text if each octet is printable, otherwise in hexadecimal. The default.
    Plain,
    /// `x`: in hexadecimal.
    Hexadecimal,
    /// `a`: as text, with a dot for each octet that isn't printable.
    Text,
}

/// How names and values are shown, as the letters of `-O` say.
#[derive(Clone, Copy, Debug, PartialEq, Eq)]
pub struct Letters {
    /// How names are shown, by the last of the letters `n`, `f`, `s` and `S`.
    pub names: NameForm,
    /// How types are shown, by the last of the letters `q` and `Q`.
    pub types: TypeForm,
    /// How strings without a hint are shown, by the last of the letters `x` and `a`.
    pub strings: StringForm,
    /// `v`: whether a line has only the value.
    pub value_alone: bool,
    /// `e`: whether enumerations and bits are shown as numbers, without their names.
    pub numeric_enumerations: bool,
    /// `t`: whether TimeTicks are shown only as a number.
    pub raw_ticks: bool,
    /// `b`: whether the index in a name is shown as numbers.
    pub numeric_index: bool,
    /// `U`: whether the units of an object are left out after its numbers.
    pub no_units: bool,
}

impl Letters {
    ghost use Rattle.smi_value.specs.Letters.{AreLetters, IsWith, first_other, is_one_of};
    ghost use Rattle.smi_value.specs.Letters.{all_letters};

    /// Returns the defaults: how names and values are shown without any letters.
    pub fn new() -> Letters
        ensures { AreLetters [] result }
    {
        Letters {
            names: NameForm::ModuleLabel,
            types: TypeForm::Typed,
            strings: StringForm::Plain,
            value_alone: false,
            numeric_enumerations: false,
            raw_ticks: false,
            numeric_index: false,
            no_units: false,
        }
    }

    /// Reads letters, in any order. The error is the first octet that isn't one of the letters.
    pub fn parse(text: &[u8]) -> Result<Letters, u8>
        ensures ok { IfOk result (AreLetters text.now) }
        ensures ok_where_all_are_letters { IsOk result ↔ (first_other text.now ≡ None) }
        ensures first_other { IfErr result (λ octet. first_other text.now ≡ Some octet) }
    {
        let mut letters = Letters::new();
        'letters: for octet in text {
            match letters.with(*octet) {
                Some(next) => letters = next,
                None => return Err(*octet),
            }
        }
        Ok(letters)
    }

    /// Returns these letters with `octet` as one more, or `None` if it isn't one of the letters.
    fn with(self, octet: u8) -> Option<Letters>
        ensures with { IfSome result (IsWith self octet) }
        ensures letter { IfSome result (λ _. is_one_of all_letters octet ≡ true) }
        ensures none { IfNone result (is_one_of all_letters octet ≡ false) }
    {
        let mut next = self;
        match octet {
            b'n' => next.names = NameForm::Numeric,
            b'f' => next.names = NameForm::Full,
            b's' => next.names = NameForm::Label,
            b'S' => next.names = NameForm::ModuleLabel,
            b'q' => next.types = TypeForm::Quick,
            b'Q' => next.types = TypeForm::Untyped,
            b'x' => next.strings = StringForm::Hexadecimal,
            b'a' => next.strings = StringForm::Text,
            b'v' => next.value_alone = true,
            b'e' => next.numeric_enumerations = true,
            b't' => next.raw_ticks = true,
            b'b' => next.numeric_index = true,
            b'U' => next.no_units = true,
            _ => return None,
        }
        Some(next)
    }
}
