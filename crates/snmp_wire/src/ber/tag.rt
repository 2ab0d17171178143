//! The tags of values, and of the SEQUENCE around them (X.690, section 8; RFC 2578, section 2; RFC
//! 3416, section 3).

/// INTEGER.
pub const INTEGER: u8 = 0x02;
/// OCTET STRING.
pub const OCTET_STRING: u8 = 0x04;
/// NULL.
pub const NULL: u8 = 0x05;
/// OBJECT IDENTIFIER.
pub const OBJECT_IDENTIFIER: u8 = 0x06;
/// SEQUENCE: a message, a varbind list or a binding.
pub const SEQUENCE: u8 = 0x30;
/// IpAddress.
pub const IP_ADDRESS: u8 = 0x40;
/// Counter32.
pub const COUNTER32: u8 = 0x41;
/// Gauge32 or Unsigned32.
pub const GAUGE32: u8 = 0x42;
/// TimeTicks.
pub const TIME_TICKS: u8 = 0x43;
/// Opaque.
pub const OPAQUE: u8 = 0x44;
/// Counter64.
pub const COUNTER64: u8 = 0x46;
/// The exception noSuchObject.
pub const NO_SUCH_OBJECT: u8 = 0x80;
/// The exception noSuchInstance.
pub const NO_SUCH_INSTANCE: u8 = 0x81;
/// The exception endOfMibView.
pub const END_OF_MIB_VIEW: u8 = 0x82;
