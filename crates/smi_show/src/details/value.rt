//! The value of a definition: an identifier in braces.
ghost use Rattle.std.specs.Prelude.{◌≡◌, ◌≤◌, ℕ, List, [], ◌∷◌, ◌++◌, length, codes, decimal};
ghost use Rattle.snmp_io.specs.Draft.{Adds};
ghost use Rattle.smi_show.specs.details.Value.{identifier_text, labelled_number, labelled_parts};
ghost use Rattle.smi_show.specs.details.Value.{parts_text};
ghost use Rattle.smi_tree.specs.Naming.{nearest_node};

use smi_tree::{Near, Tree};
use snmp_io::Draft;
use snmp_oid::Oid;

/// Appends the line `::= { P }`: P is the numbers, each but the last with its label if it has one.
pub fn identifier_text(tree: &Tree, oid: &Oid, draft: &mut Draft)
    ensures { Adds draft.old (identifier_text tree.now oid.now) draft.new }
{
    draft.octets(b"::= { ");
    parts_text(tree, oid.as_slice(), draft);
    draft.octets(b"}\n");
}

/// Appends the numbers, a blank after each, and each but the last with its label, if it has one.
fn parts_text(tree: &Tree, numbers: &[u32], draft: &mut Draft)
    requires { length numbers.now ≤ 128 }
    ensures { Adds draft.old (parts_text tree.now numbers.now) draft.new }
{
    if let [prefix @ .., last] = numbers {
        labelled_parts(tree, prefix, draft);
        draft.number(u64::from(*last));
        draft.octets(b" ");
    }
}

/// Appends each number with its label, if it has one, and a blank.
fn labelled_parts(tree: &Tree, numbers: &[u32], draft: &mut Draft)
    requires { length numbers.now ≤ 128 }
    ensures { Adds draft.old (labelled_parts tree.now numbers.now) draft.new }
{
    let mut here = Oid::new();
    let mut near = Near::new();
    'each: for number in numbers {
        here.push_with_room(*number);
        labelled_part(tree, &here, *number, &mut near, draft);
    }
}

/// Appends what [`labelled_number`] appends, and then a blank.
fn labelled_part(tree: &Tree, here: &Oid, number: u32, near: &mut Near, draft: &mut Draft)
    ensures { let view = nearest_node tree.now here.now in
        Adds draft.old (labelled_number view here.now number ++ codes " ") draft.new }
{
    labelled_number(tree, here, number, near, draft);
    draft.octets(b" ");
}

/// Appends the label of the node at `here` and `number` in parentheses, or only `number` if no node
/// is at `here`.
fn labelled_number(tree: &Tree, here: &Oid, number: u32, near: &mut Near, draft: &mut Draft)
    ensures { let view = nearest_node tree.now here.now in
        Adds draft.old (labelled_number view here.now number) draft.new }
{
    match tree.nearest_from(here, near) {
        Some(node) if node.depth == here.len() => {
            draft.octets(node.label);
            draft.octets(b"(");
            draft.number(u64::from(number));
            draft.octets(b")");
        }
        _ => draft.number(u64::from(number)),
    }
}
