//! The notification that a received trap reports.
ghost use Rattle.std.specs.Prelude.{List, ℕ, IfSome, IfNone};
ghost use Rattle.uses.specs.Traps.{IsTrap, IsTrapMessage};

use snmp_wire::{Binding, Kind, MessageRef, Oid, ValueRef, decode};

/// The version of a message of SNMPv2c (RFC 1901, section 3).
const VERSION_2C: i32 = 1;

/// The name of the instance of snmpTrapOID (RFC 3418, section 2).
const SNMP_TRAP_OID: [u32; 11] = [1, 3, 6, 1, 6, 3, 1, 1, 4, 1, 0];

/// Returns the identifier of the notification that a datagram reports: the value of snmpTrapOID.0,
/// which is the second binding of an SNMPv2-Trap (RFC 3416, section 4.2.6). Returns `None` if the
/// datagram isn't an SNMPv2-Trap of SNMPv2c, or if its second binding isn't snmpTrapOID.0 with an
/// identifier.
pub fn trap_oid(datagram: &[u8]) -> Option<Oid>
    ensures some { IfSome result (IsTrap datagram.now) }
    ensures none { IfNone result ((oid : List ℕ) → IsTrap datagram.now oid → ⊥) }
{
    match decode(datagram) {
        Ok(message) => trap_oid_of(&message),
        Err(_) => None,
    }
}

/// Returns the identifier of the notification that a message reports, as [`trap_oid`] does.
fn trap_oid_of(message: &MessageRef<'_>) -> Option<Oid>
    ensures some { IfSome result (IsTrapMessage message.now) }
    ensures none { IfNone result ((oid : List ℕ) → IsTrapMessage message.now oid → ⊥) }
{
    if message.version() != VERSION_2C {
        return None;
    }
    let Kind::Trap = message.kind() else {
        return None;
    };
    let mut bindings = message.bindings();
    let mut uptime = Binding::empty();
    let mut second = Binding::empty();
    if !bindings.read_next(&mut uptime) || !bindings.read_next(&mut second) {
        return None;
    }
    if second.name.as_slice() != SNMP_TRAP_OID.as_slice() {
        return None;
    }
    match second.value {
        ValueRef::ObjectId(oid) => Some(oid),
        _ => None,
    }
}
