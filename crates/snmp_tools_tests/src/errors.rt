//! The messages of errors.

use smi_show::NameError;
use smi_text::{LexError, ParseError};
use snmp_agent::{DropReason, EndpointFault, PutError, TableError};
use snmp_io::{FileFault, OutputFault};
use snmp_oid::{OidError, OidTextError};
use snmp_walk::{LinkFault, SinkFault, StartError};
use snmp_wire::BerError;
use snmp_words::UsageError;
use std::alloc::Global;
use std::fmt::Display;

/// Returns whether `error` is displayed as `text`.
fn says<E: Display + Drop>(alloc: Global, error: E, text: &str) -> bool {
    match format!(in alloc; "{error}") {
        Ok(said) => said.as_str() == text,
        Err(_) => false,
    }
}

#[test]
fn errors_of_messages_have_their_texts(rt: HostRuntime) {
    for (error, text) in [
        (BerError::Truncated, "the message is cut short"),
        (BerError::Trailing, "octets follow the message"),
        (BerError::Length, "a length is wrong"),
        (BerError::Tag, "a tag is out of place"),
        (BerError::Content, "content doesn't fit its type"),
    ] {
        assert!(rt; says(rt.alloc(), error, text));
    }
    for (error, text) in [
        (DropReason::Undecodable, "no message"),
        (DropReason::Version, "another version than 2c"),
        (DropReason::Community, "another community"),
        (DropReason::Pdu, "no request that is served"),
        (DropReason::TooLong, "no reply fits"),
    ] {
        assert!(rt; says(rt.alloc(), error, text));
    }
}

#[test]
fn errors_of_identifiers_and_names_have_their_texts(rt: HostRuntime) {
    for (error, text) in [
        (
            OidError::TooLong,
            "an object identifier has at most 128 numbers",
        ),
        (OidError::NotWire, "the object identifier has no encoding"),
    ] {
        assert!(rt; says(rt.alloc(), error, text));
    }
    for (error, text) in [
        (OidTextError::BadNumber(7), "no number at octet 7"),
        (OidTextError::TooLong, "a name has at most 128 numbers"),
    ] {
        assert!(rt; says(rt.alloc(), error, text));
    }
    for (error, text) in [
        (NameError::Unknown, "unknown name"),
        (NameError::BadIndex, "bad index"),
        (NameError::BadNumber, "bad number"),
        (NameError::TooLong, "name too long"),
    ] {
        assert!(rt; says(rt.alloc(), error, text));
    }
}

#[test]
fn errors_of_tables_have_their_texts(rt: HostRuntime) {
    for (error, text) in [
        (TableError::BadLine { line: 1 }, "line 1: bad line"),
        (TableError::BadName { line: 2 }, "line 2: bad name"),
        (TableError::BadValue { line: 3 }, "line 3: bad value"),
        (TableError::Double { line: 4 }, "line 4: double name"),
        (TableError::Memory, "out of memory"),
    ] {
        assert!(rt; says(rt.alloc(), error, text));
    }
    for (error, text) in [
        (PutError::BadName, "bad name"),
        (PutError::BadValue, "bad value"),
        (PutError::Memory, "out of memory"),
    ] {
        assert!(rt; says(rt.alloc(), error, text));
    }
}

#[test]
fn errors_of_modules_have_their_texts(rt: HostRuntime) {
    for (error, text) in [
        (
            LexError::BadByte { line: 5 },
            "line 5: no token begins here",
        ),
        (
            LexError::OpenString { line: 6 },
            "line 6: the string has no end",
        ),
    ] {
        assert!(rt; says(rt.alloc(), error, text));
        assert!(rt; says(rt.alloc(), ParseError::Lex(error), text));
    }
    for (error, text) in [
        (
            ParseError::Syntax { line: 7 },
            "line 7: no module goes on like this",
        ),
        (
            ParseError::DoubleName { line: 8 },
            "line 8: a second definition of the name",
        ),
        (ParseError::Memory, "out of memory"),
    ] {
        assert!(rt; says(rt.alloc(), error, text));
    }
}

#[test]
fn errors_of_walks_and_files_have_their_texts(rt: HostRuntime) {
    for (error, text) in [
        (StartError::NotWire, "the name can't be sent"),
        (
            StartError::AfterOutsideRoot,
            "the name isn't below the root",
        ),
    ] {
        assert!(rt; says(rt.alloc(), error, text));
    }
    for (error, text) in [
        (SinkFault::Output, "the output failed"),
        (SinkFault::Memory, "out of memory"),
    ] {
        assert!(rt; says(rt.alloc(), error, text));
    }
    for (error, text) in [
        (FileFault::Unreadable, "Can't read the file."),
        (FileFault::Memory, "Out of memory."),
    ] {
        assert!(rt; says(rt.alloc(), error, text));
    }
    assert!(rt; says(rt.alloc(), LinkFault, "the link failed"));
    assert!(rt; says(rt.alloc(), EndpointFault, "the endpoint failed"));
    assert!(rt; says(rt.alloc(), OutputFault, "The output failed."));
    assert!(rt; says(rt.alloc(), UsageError::Memory, "Out of memory."));
}
