//! The lines that tell why a call printed nothing, or not all.
ghost use Rattle.std.specs.Prelude.{◌≡◌};
ghost use Rattle.std.specs.List.{concat};
ghost use Rattle.std.specs.Option.{option_copied};
ghost use Rattle.el_base.specs.Labels.{printed};
ghost use Rattle.elastic_top.specs.Faults.{fault_line, front, go_parts, input_parts, interpret_parts, labelled_parts, line_parts, name_parts, net_parts, part_parts, place_parts, refusal_parts, resume_parts, run_parts, span_parts, IsTold};

use crate::fault::{Fault, KernelFiles, Refusal, RunFiles};
use crate::line::{Piece, write_line};
use el_base::{Label, Memory, Span};
use el_io::Sink;
use inputs_text::InputRefusal;
use kernel_ref::InterpretRefusal;
use kernel_runs::GoRefusal;
use net_check::At;
use net_front::NetlistRefusal;
use net_runs::{ResumeRefusal, RunRefusal};

/// Writes the fault's line; a fault of the sink is no matter.
pub fn tell<E: Sink>(err: &mut E, fault: &Fault<'_>)
    ensures { IsTold (E.written err.old) (E.written err.new) (E.faults err.old) (E.faults err.new)
        (fault_line fault.now) }
{
    match fault {
        Fault::Usage => write_line(err, &[Piece::Text("elastic: the words are no command\n")]),
        Fault::Read(file) => write_line(
            err,
            &[
                Piece::Text("elastic: cannot read "),
                Piece::Text(*file),
                Piece::Text("\n"),
            ],
        ),
        Fault::Write => write_line(err, &[Piece::Text("elastic: cannot write\n")]),
        Fault::Memory => write_line(err, &[Piece::Text("elastic: want of memory\n")]),
        Fault::TooLong(file) => write_line(
            err,
            &[
                Piece::Text("elastic: "),
                Piece::Text(*file),
                Piece::Text(" is too long\n"),
            ],
        ),
        Fault::Refused(refusal) => tell_refusal(err, refusal),
    }
}

fn tell_refusal<E: Sink>(err: &mut E, refusal: &Refusal<'_>)
    ensures { IsTold (E.written err.old) (E.written err.new) (E.faults err.old) (E.faults err.new)
        (concat (refusal_parts refusal.now)) }
{
    tell_labelled(err, refusal.label(), refusal);
}

fn tell_labelled<E: Sink>(err: &mut E, label: Label, refusal: &Refusal<'_>)
    ensures { IsTold (E.written err.old) (E.written err.new) (E.faults err.old) (E.faults err.new)
        (concat (labelled_parts (printed label.number label.word.now) refusal.now)) }
{
    match refusal {
        Refusal::Kernel(file, refused) => tell_span(err, *file, label, refused.span()),
        Refusal::Net(file, refused) => tell_net(err, *file, label, *refused),
        Refusal::Run(files, refused) => tell_run(err, files, label, refused),
        Refusal::Go(files, refused) => tell_go(err, files, label, refused),
        Refusal::Interpret(files, refused) => tell_interpret(err, files, label, refused),
        Refusal::Resume(file, refused) => tell_resume(err, *file, label, refused),
        Refusal::Bench(Memory) => tell_line(err, "elastic", label, None),
    }
}

// ---- the kinds of work

fn tell_net<E: Sink>(err: &mut E, file: &str, label: Label, refused: NetlistRefusal)
    ensures { IsTold (E.written err.old) (E.written err.new) (E.faults err.old) (E.faults err.new)
        (concat (net_parts file.now (printed label.number label.word.now) refused)) }
{
    match refused {
        NetlistRefusal::Text(refused) => tell_line(err, file, label, wide(refused.line())),
        NetlistRefusal::Rule(refused) => tell_place(err, file, label, refused.at()),
        NetlistRefusal::Memory => tell_line(err, file, label, None),
    }
}

fn tell_run<E: Sink>(err: &mut E, files: &RunFiles<'_>, label: Label, refused: &RunRefusal)
    ensures { IsTold (E.written err.old) (E.written err.new) (E.faults err.old) (E.faults err.new)
        (concat (run_parts files.now (printed label.number label.word.now) refused.now)) }
{
    match refused {
        RunRefusal::Inputs(refused) => tell_inputs(err, files.inputs, label, refused),
        RunRefusal::Schedule(refused) => {
            tell_line(err, front(files.schedule), label, wide(refused.line()));
        }
        RunRefusal::NotEnabled { index } => {
            tell_line(err, front(files.schedule), label, Some(*index));
        }
        RunRefusal::Limit { limit } => tell_line(err, "elastic", label, Some(*limit)),
        RunRefusal::Stuck => tell_line(err, "elastic", label, None),
        RunRefusal::Stray { name, .. } => tell_name(err, "elastic", label, name.as_slice()),
        RunRefusal::Memory => tell_line(err, "elastic", label, None),
    }
}

fn tell_go<E: Sink>(err: &mut E, files: &KernelFiles<'_>, label: Label, refused: &GoRefusal)
    ensures { IsTold (E.written err.old) (E.written err.new) (E.faults err.old) (E.faults err.new)
        (concat (go_parts files.now (printed label.number label.word.now) refused.now)) }
{
    match refused {
        GoRefusal::Kernel(refused) => tell_span(err, files.kernel, label, refused.span()),
        GoRefusal::Run(refused) => {
            let files = RunFiles {
                inputs: files.inputs,
                schedule: None,
            };
            tell_run(err, &files, label, refused);
        }
        GoRefusal::Memory => tell_line(err, "elastic", label, None),
    }
}

fn tell_interpret<E: Sink>(
    err: &mut E,
    files: &KernelFiles<'_>,
    label: Label,
    refused: &InterpretRefusal,
)
    ensures { IsTold (E.written err.old) (E.written err.new) (E.faults err.old) (E.faults err.new)
        (concat (interpret_parts files.now (printed label.number label.word.now) refused.now)) }
{
    match refused {
        InterpretRefusal::Inputs(refused) => tell_inputs(err, files.inputs, label, refused),
        InterpretRefusal::Undefined { span } => tell_span(err, files.kernel, label, Some(*span)),
        InterpretRefusal::OutOfTurns { turns } => tell_line(err, "elastic", label, Some(*turns)),
        InterpretRefusal::Memory => tell_line(err, "elastic", label, None),
    }
}

fn tell_resume<E: Sink>(err: &mut E, file: &str, label: Label, refused: &ResumeRefusal)
    ensures { IsTold (E.written err.old) (E.written err.new) (E.faults err.old) (E.faults err.new)
        (concat (resume_parts file.now (printed label.number label.word.now) refused.now)) }
{
    match refused {
        ResumeRefusal::Snapshot(refused) => tell_line(err, file, label, wide(refused.line())),
        ResumeRefusal::Limit { limit } => tell_line(err, "elastic", label, Some(*limit)),
        ResumeRefusal::Stuck => tell_line(err, "elastic", label, None),
        ResumeRefusal::Stray { name, .. } => tell_name(err, "elastic", label, name.as_slice()),
        ResumeRefusal::Memory => tell_line(err, "elastic", label, None),
    }
}

// The line of a refusal of inputs, which names a line of its file, or a name.
fn tell_inputs<'a, E: Sink>(err: &mut E, file: &'a str, label: Label, refused: &'a InputRefusal)
    ensures { IsTold (E.written err.old) (E.written err.new) (E.faults err.old) (E.faults err.new)
        (concat (input_parts file.now (printed label.number label.word.now) refused.now)) }
{
    match refused.name() {
        Some(name) => tell_name(err, file, label, name.as_slice()),
        None => tell_line(err, file, label, wide(refused.line())),
    }
}

// ---- forms of lines

// The word of a file, or the program's name where there is no file.
fn front(file: Option<&str>) -> &str
    ensures { result.now ≡ front (option_copied file.entry) }
{
    match file {
        Some(file) => file,
        None => "elastic",
    }
}

fn wide(number: Option<u32>) -> Option<u64>
    ensures { result ≡ number }
{
    match number {
        Some(number) => Some(u64::from(number)),
        None => None,
    }
}

// The line of a refusal that may name a place in its file.
fn tell_span<E: Sink>(err: &mut E, file: &str, label: Label, span: Option<Span>)
    ensures { IsTold (E.written err.old) (E.written err.new) (E.faults err.old) (E.faults err.new)
        (concat (span_parts file.now (printed label.number label.word.now) span)) }
{
    match span {
        Some(span) => write_line(
            err,
            &[
                Piece::Text(file),
                Piece::Text(":"),
                Piece::Number(u64::from(span.line)),
                Piece::Text(":"),
                Piece::Number(u64::from(span.column)),
                Piece::Text(": "),
                Piece::Labelled(label),
                Piece::Text("\n"),
            ],
        ),
        None => tell_line(err, file, label, None),
    }
}

// The line of a refusal that may name a line of its file, or another number.
fn tell_line<E: Sink>(err: &mut E, file: &str, label: Label, number: Option<u64>)
    ensures { IsTold (E.written err.old) (E.written err.new) (E.faults err.old) (E.faults err.new)
        (concat (line_parts file.now (printed label.number label.word.now) number)) }
{
    match number {
        Some(number) => write_line(
            err,
            &[
                Piece::Text(file),
                Piece::Text(": "),
                Piece::Labelled(label),
                Piece::Text(" "),
                Piece::Number(number),
                Piece::Text("\n"),
            ],
        ),
        None => write_line(
            err,
            &[
                Piece::Text(file),
                Piece::Text(": "),
                Piece::Labelled(label),
                Piece::Text("\n"),
            ],
        ),
    }
}

// The line of a refusal that names a parameter or an array.
fn tell_name<'a, E: Sink>(err: &mut E, file: &'a str, label: Label, name: &'a [u8])
    ensures { IsTold (E.written err.old) (E.written err.new) (E.faults err.old) (E.faults err.new)
        (concat (name_parts file.now (printed label.number label.word.now) name.now)) }
{
    write_line(
        err,
        &[
            Piece::Text(file),
            Piece::Text(": "),
            Piece::Labelled(label),
            Piece::Text(" "),
            Piece::Bytes(name),
            Piece::Text("\n"),
        ],
    );
}

// The line of a refusal that may name a part of a net.
fn tell_place<E: Sink>(err: &mut E, file: &str, label: Label, place: Option<At>)
    ensures { IsTold (E.written err.old) (E.written err.new) (E.faults err.old) (E.faults err.new)
        (concat (place_parts file.now (printed label.number label.word.now) place)) }
{
    match place {
        Some(At::Unit(unit)) => tell_part(err, file, label, " unit ", unit),
        Some(At::Chan(chan)) => tell_part(err, file, label, " chan ", chan),
        Some(At::Net) => write_line(
            err,
            &[
                Piece::Text(file),
                Piece::Text(": "),
                Piece::Labelled(label),
                Piece::Text(" net\n"),
            ],
        ),
        None => tell_line(err, file, label, None),
    }
}

fn tell_part<'a, E: Sink>(err: &mut E, file: &'a str, label: Label, part: &'a str, number: u32)
    ensures { IsTold (E.written err.old) (E.written err.new) (E.faults err.old) (E.faults err.new)
        (concat (part_parts file.now (printed label.number label.word.now) part.now number)) }
{
    write_line(
        err,
        &[
            Piece::Text(file),
            Piece::Text(": "),
            Piece::Labelled(label),
            Piece::Text(part),
            Piece::Number(u64::from(number)),
            Piece::Text("\n"),
        ],
    );
}
