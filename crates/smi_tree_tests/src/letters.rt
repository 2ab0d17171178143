//! The letters of `-O`.
use smi_value::{Letters, NameForm, StringForm, TypeForm};
use std::process::Abort;

/// Asserts that `text` is read as these letters.
fn assert_letters(rt: &impl Abort, text: &[u8], letters: Letters) {
    assert!(rt; Letters::parse(text) == Ok(letters), "{text:?}");
}

/// Asserts that `text` is refused because of `octet`, which isn't a letter of `-O`.
fn assert_no_letter(rt: &impl Abort, text: &[u8], octet: u8) {
    assert!(rt; Letters::parse(text) == Err(octet), "{text:?}");
}

#[test]
fn without_letters_the_usual_forms_apply(rt: HostRuntime) {
    let usual = Letters::new();
    assert_letters(&rt, b"", usual);
    assert!(rt; usual.names == NameForm::ModuleLabel);
    assert!(rt; usual.types == TypeForm::Typed);
    assert!(rt; usual.strings == StringForm::Plain);
}

#[test]
fn the_last_of_letters_that_exclude_each_other_applies(rt: HostRuntime) {
    let letters = Letters::new();
    assert_letters(
        &rt,
        b"nfs",
        Letters {
            names: NameForm::Label,
            ..letters
        },
    );
    assert_letters(
        &rt,
        b"snf",
        Letters {
            names: NameForm::Full,
            ..letters
        },
    );
    assert_letters(
        &rt,
        b"fSn",
        Letters {
            names: NameForm::Numeric,
            ..letters
        },
    );
    assert_letters(&rt, b"nS", letters);
    assert_letters(
        &rt,
        b"Qq",
        Letters {
            types: TypeForm::Quick,
            ..letters
        },
    );
    assert_letters(
        &rt,
        b"qQ",
        Letters {
            types: TypeForm::Untyped,
            ..letters
        },
    );
    assert_letters(
        &rt,
        b"ax",
        Letters {
            strings: StringForm::Hexadecimal,
            ..letters
        },
    );
    assert_letters(
        &rt,
        b"xa",
        Letters {
            strings: StringForm::Text,
            ..letters
        },
    );
}

#[test]
fn each_other_letter_sets_one_choice(rt: HostRuntime) {
    let letters = Letters::new();
    assert_letters(
        &rt,
        b"v",
        Letters {
            value_alone: true,
            ..letters
        },
    );
    assert_letters(
        &rt,
        b"ee",
        Letters {
            numeric_enumerations: true,
            ..letters
        },
    );
    assert_letters(
        &rt,
        b"t",
        Letters {
            raw_ticks: true,
            ..letters
        },
    );
    assert_letters(
        &rt,
        b"b",
        Letters {
            numeric_index: true,
            ..letters
        },
    );
    assert_letters(
        &rt,
        b"U",
        Letters {
            no_units: true,
            ..letters
        },
    );
}

#[test]
fn the_first_other_octet_is_reported(rt: HostRuntime) {
    assert_no_letter(&rt, b"u", b'u');
    assert_no_letter(&rt, b"qXsN", b'X');
    assert_no_letter(&rt, b"nfsSqQvetbUxa ", b' ');
    assert_no_letter(&rt, b"\0", 0);
}
