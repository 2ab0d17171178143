//! Lines on an output: one for each binding of a walk or a Get, written when its reply arrives,
//! and the count after them.
ghost use Rattle.std.specs.Prelude.{◌≡◌, ◌+◌, ◌++◌, IfErr, IfOk, OnErr, OnOk};
ghost use Rattle.snmp_io.specs.Output.{FailsWithin, stream_after};
ghost use Rattle.snmp_tools.specs.Lines.{ArePrinted, IsTextPrinted, count_line, TakesLine};
ghost use Rattle.snmp_tools.specs.{Answer.CanBeSent, Answer.IsAskedOver, FaultText.fault_of};
ghost use Rattle.snmp_tools.specs.{FaultText.outcome_of, private.Start.BeginFails};
ghost use Rattle.snmp_tools.specs.private.Planned.{plan_of, question_of};

use crate::failure::Failure;
use crate::plan::Plan;
use crate::run::start::run_plan;
use smi_show::{Letters, LineWriter};
use smi_tree::Tree;
use snmp_io::{Draft, Output, write_all};
use snmp_oid::Oid;
use snmp_walk::{Link, Rows, Sink, SinkFault, WalkEnd};
use snmp_wire::{Binding, ValueRef};
use std::alloc::AllocError;

/// A sink that writes the line of each binding. Names and types are looked up in a tree, and shown
/// as the letters of `-O` say.
#[derive(Drop)]
pub(crate) struct Printer<'a, O: Output> {
    writer: LineWriter<'a>,
    letters: Letters,
    // The lines of a reply, until they are written. The buffer is used again for the next reply.
    text: &'a mut Vec<u8>,
    out: &'a mut O,
}

impl<O: Output> Sink for Printer<'_, O> {
    ghost takes = { λ old binding result new.
        (new.writer ≡ old.writer) × (new.letters ≡ old.letters)
        × (new.out.ghost_name ≡ old.out.ghost_name)
        × TakesLine old.writer old.letters
        (O.stream old.out.now) binding result (O.stream new.out.now) };

    fn row(&mut self, binding: &Binding<'_>) -> Result<(), SinkFault> {
        self.text.clear();
        let (name, value) = (&binding.name, &binding.value);
        let writer = &mut self.writer;
        if writer.line(&self.letters, name, value, self.text).is_err() {
            return Err(SinkFault::Memory);
        }
        write_lines(self.out, self.text.as_slice())
    }

    // Writes all lines of a reply at once. If there is no memory for a line, writes the lines
    // before it and then fails.
    fn rows(&mut self, mut rows: Rows<'_>) -> Result<(), SinkFault> {
        let mut binding = Binding {
            name: Oid::new(),
            value: ValueRef::Null,
        };
        if !rows.read_next(&mut binding) {
            return Ok(());
        }
        self.text.clear();
        if self
            .writer
            .line(&self.letters, &binding.name, &binding.value, self.text)
            .is_err()
        {
            return Err(SinkFault::Memory);
        }
        'rows: while rows.read_next(&mut binding) {
            if self
                .writer
                .line(&self.letters, &binding.name, &binding.value, self.text)
                .is_err()
            {
                write_lines(self.out, self.text.as_slice())?;
                return Err(SinkFault::Memory);
            }
        }
        write_lines(self.out, self.text.as_slice())
    }
}

/// Asks the question of `plan` over `link`, writes the line of each binding to `out`, and returns
/// how that ended. `text` is a buffer for the lines. Fails as `run_plan` does; then nothing is
/// written.
pub(crate) fn print_lines<'a, L: Link, O: Output>(
    link: &mut L,
    plan: &Plan<'_, 'a>,
    retries: u32,
    tree: &Tree,
    text: &mut Vec<u8>,
    out: &mut O,
) -> Result<WalkEnd, Failure<'a>>
    ensures sendable { OnOk result (CanBeSent (question_of plan.now.question)) }
    ensures printed { IfOk result (λ end. ArePrinted tree.now plan.now.orders.letters
        (O.stream out.old) (O.stream out.new) end
        (λ given refused. IsAskedOver L.Link link.old link.new (retries + 1)
        (plan_of plan.now) (question_of plan.now.question) given refused end)) }
    ensures refused { IfErr result (λ e. BeginFails plan.now.question (fault_of e)
        × (O.stream out.new ≡ O.stream out.old)) }
    ensures link_unchanged_on_error { OnErr result (link.new ≡ link.old) }
{
    let mut printer = Printer {
        writer: LineWriter::new(tree),
        letters: plan.orders.letters,
        text,
        out,
    };
    let done = run_plan(link, plan, retries, &mut printer);
    let Printer {
        writer: _writer,
        letters: _letters,
        text: _text,
        out: _out,
    } = printer;
    let end = done?;
    Ok(end)
}

/// Prints the line that says how many bindings were found. `text` is a buffer for it.
pub(crate) fn print_count<'a, O: Output>(
    count: u64,
    text: &mut Vec<u8>,
    out: &mut O,
) -> Result<(), Failure<'a>>
    ensures { IsTextPrinted (O.stream out.old) (count_line count) (O.stream out.new)
        (outcome_of result) }
{
    text.clear();
    count_line(count, text)?;
    print_text(text.as_slice(), out)
}

/// Prints `text`. If the output fails, fails too, and has printed a prefix of `text`.
pub(crate) fn print_text<'a, O: Output>(text: &[u8], out: &mut O) -> Result<(), Failure<'a>>
    ensures { IsTextPrinted (O.stream out.old) text.now (O.stream out.new) (outcome_of result) }
{
    write_all(out, text).map_err(|_| Failure::Output)
}

/// Writes `lines`. If the output fails, fails too, and has written a prefix of them.
fn write_lines<O: Output>(out: &mut O, lines: &[u8]) -> Result<(), SinkFault>
    ensures whole_at_ok { OnOk result (O.stream out.new
        ≡ stream_after (O.stream out.old) lines.now) }
    ensures prefix_at_fault { IfErr result (λ fault. (fault ≡ SinkFault.Output)
        × FailsWithin (O.stream out.old) lines.now (O.stream out.new)) }
{
    write_all(out, lines).map_err(|_| SinkFault::Output)
}

/// Appends the line that says how many bindings were found.
fn count_line(count: u64, out: &mut Vec<u8>) -> Result<(), AllocError>
    ensures { OnOk result (out.new.items ≡ out.old.items ++ count_line count) }
{
    let mut draft = Draft::after(out);
    draft.octets(b"Variables found: ");
    draft.number(count);
    draft.octets(b"\n");
    draft.finish(out)
}
