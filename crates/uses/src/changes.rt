//! An agent whose table changes.
ghost use Rattle.std.specs.Prelude.{◌≡◌, ◌≤◌, IfOk, IfErr, length, pos, take};
ghost use Rattle.snmp_oid.specs.Identifier.{IsWire};
ghost use Rattle.snmp_wire.specs.{Message.VarBind, Message.datum, Spelling.Spells};
ghost use Rattle.snmp_agent.specs.table.Table.{IsGet, without_row};
ghost use Rattle.uses.specs.Changes.{IsSent, get_of, reply_with};

use snmp_agent::{Config, Outcome, PutError, Table, answer, changed_rows};
use snmp_wire::{
    Binding, Kind, MAX_DATAGRAM, Oid, Parts, ValueRef, encode, message_sizes, requests_are_short,
};

/// Sends a Get of `name` with the request-id `id` to the agent of a table, as a manager does by a
/// datagram. Writes the reply to the start of `out`, and returns its length in octets; returns
/// `None` if the agent doesn't reply.
pub fn ask(
    table: &Table,
    config: &Config<'_>,
    name: &Oid,
    id: i32,
    out: &mut [u8; MAX_DATAGRAM],
) -> Option<usize>
    requires { IsWire name.now }
    // The reply has the binding that a Get of the name returns, if it is no longer than the agent's
    // messages may be.
    ensures { (binding : VarBind) → IsGet table.now name.now binding
        → IsSent config.now.max_size (reply_with config.now.community.now id binding)
        result out.new }
{
    let mut request = [0; 1000];
    let size = write_get(config.community, name, id, &mut request);
    match answer(table, config, &request[..size], out) {
        Outcome::Reply(length) => Some(length),
        Outcome::Dropped(_) => None,
    }
}

/// Writes a Get of `name` to the start of `out`, and returns its length in octets.
fn write_get(community: &[u8], name: &Oid, id: i32, out: &mut [u8; 1000]) -> usize
    requires wire { IsWire name.now }
    requires community { length community.now ≤ 255 }
    ensures get { Spells (get_of community.now id name.now) (take result out.new) }
    ensures within { result ≤ 1000 }
{
    message_sizes();
    requests_are_short();
    // The contract of `as_slice` says that a name has at most 128 numbers, so the Get is short.
    let _numbers = name.as_slice();
    let bindings = [Binding {
        name: name.copy(),
        value: ValueRef::Null,
    }];
    let parts = Parts {
        version: 1,
        community,
        kind: Kind::GetRequest,
        id,
        a: 0,
        b: 0,
        bindings: &bindings,
    };
    match encode(&parts, out) {
        Some(size) => size,
        None => unreachable!(),
    }
}

/// Puts a row into a table and removes it again, and sends a Get of its name to the agent after
/// each. Writes the replies to the start of `first` and `second`, and returns their lengths in
/// octets, `None` for no reply. If the table had a row of this name before, that row is gone too.
/// Fails if the row can't be put: then no Get is sent, and the table is unchanged.
pub fn put_and_remove(
    table: &mut Table,
    config: &Config<'_>,
    name: &Oid,
    value: ValueRef<'_>,
    first: &mut [u8; MAX_DATAGRAM],
    second: &mut [u8; MAX_DATAGRAM],
) -> Result<(Option<usize>, Option<usize>), PutError>
    // After the row is put, a reply with `value` is written to `first`, if it is no longer than
    // the agent's messages may be.
    ensures there { IfOk result (λ sizes. IsSent config.now.max_size
        (reply_with config.now.community.now (pos 1)
        (record { name = name.now; value = datum value.entry })) sizes.0 first.new) }
    // After the row is removed, a Get of the name returns some `binding`. A reply with it is
    // written to `second`, if it is no longer than the agent's messages may be.
    ensures gone { IfOk result (λ sizes. (binding : VarBind)
        → IsGet (without_row table.old name.now) name.now binding
        → IsSent config.now.max_size (reply_with config.now.community.now (pos 1) binding)
        sizes.1 second.new) }
    ensures table { IfOk result (λ _. table.new ≡ without_row table.old name.now) }
    ensures unchanged_on_error { IfErr result (λ _. table.new ≡ table.old) }
{
    changed_rows();
    match table.put(name, value) {
        Ok(_) => {}
        Err(fault) => return Err(fault),
    }
    let one = ask(table, config, name, 1, first);
    table.remove(name);
    let two = ask(table, config, name, 1, second);
    Ok((one, two))
}
