//! The text of calls and of declarations.
ghost use Rattle.std.specs.Prelude.{◌≡◌, ◌+◌, ◌*◌, ◌<◌, ◌≤◌, ◌++◌, length};
ghost use Rattle.task_script.specs.Texts.{access_text, argument_text, arguments_text, bare_text, call_text, declaration_text, letter, mode_text, named_text, prot_text, verb_and_arguments};
ghost use Rattle.task_script.specs.Verbs.{verb_text};
ghost use Rattle.task_script.specs.Versions.{version_text};

use crate::verb::{Argument, Values, arguments_of};
use crate::version::Version;
use byte_streams::Outbox;
use word_bits::{CallKind, CallWords, Mode};

fn access_letter(access: u8) -> &'static [u8]
    ensures text { result.now ≡ access_text access }
    ensures short { length result.now ≡ 1 }
{
    match access {
        1 => b"r",
        2 => b"w",
        _ => b"x",
    }
}

fn letter_of(bits: u8, bit: u8, name: u8) -> u8
    requires { 0 < bit }
    ensures { result ≡ letter bits bit name }
{
    if bits / bit % 2 == 1 { name } else { b'-' }
}

/// Adds a protection: `r`, `w` and `x`, or `-` for each missing bit.
pub fn add_prot(out: &mut Outbox, prot: u8)
    requires { length out.old + 3 ≤ 4096 }
    ensures text { out.new ≡ out.old ++ prot_text prot }
    ensures short { length out.new ≤ length out.old + 3 }
{
    out.add(&[
        letter_of(prot, 1, b'r'),
        letter_of(prot, 2, b'w'),
        letter_of(prot, 4, b'x'),
    ]);
}

fn add_argument(out: &mut Outbox, argument: Argument, values: Values)
    requires { length out.old + 20 ≤ 4096 }
    ensures text { out.new ≡ out.old ++ argument_text values argument }
    ensures short { length out.new ≤ length out.old + 20 }
{
    match argument {
        Argument::First | Argument::File | Argument::Target => {
            out.add_number(u64::from(values.first));
        }
        Argument::Second => out.add_number(u64::from(values.second)),
        Argument::Third => out.add_number(u64::from(values.third)),
        Argument::Protection => add_prot(out, values.prot),
        Argument::AccessBit => out.add(access_letter(values.access)),
    }
}

#[tactic(auto, using(byte_streams::proofs::Pieces::flat_map_more))]
fn add_arguments(out: &mut Outbox, arguments: &[Argument], values: Values)
    requires { length out.old + 21 * length arguments.now ≤ 4096 }
    ensures text { out.new ≡ out.old ++ arguments_text values arguments.now }
    ensures short { length out.new ≤ length out.old + 21 * length arguments.now }
{
    for argument in arguments {
        out.add(b" ");
        add_argument(out, *argument, values);
    }
}

/// Adds the verb as it stands in a script.
fn add_verb_text(out: &mut Outbox, verb: CallKind)
    requires { length out.old + 8 ≤ 4096 }
    ensures text { out.new ≡ out.old ++ verb_text verb }
    ensures short { length out.new ≤ length out.old + 8 }
{
    match verb {
        CallKind::Map => out.add(b"map"),
        CallKind::MapAny => out.add(b"map any"),
        CallKind::MapNew => out.add(b"mapnew"),
        CallKind::Unmap => out.add(b"unmap"),
        CallKind::Protect => out.add(b"protect"),
        CallKind::Populate => out.add(b"populate"),
        CallKind::Fault => out.add(b"fault"),
        CallKind::Open => out.add(b"open"),
        CallKind::Close => out.add(b"close"),
        CallKind::Dup => out.add(b"dup"),
        CallKind::Dup2 => out.add(b"dup2"),
        CallKind::Get => out.add(b"get"),
        CallKind::Remap => out.add(b"remap"),
        CallKind::Signal => out.add(b"signal"),
    }
}

fn add_verb(out: &mut Outbox, verb: Option<CallKind>, values: Values)
    requires { length out.old + 71 ≤ 4096 }
    ensures text { out.new ≡ out.old ++ bare_text values verb }
    ensures short { length out.new ≤ length out.old + 71 }
{
    if let Some(verb) = verb {
        add_verb_text(out, verb);
        add_arguments(out, arguments_of(verb), values);
    }
}

fn add_verb_and_arguments(out: &mut Outbox, words: CallWords)
    requires { length out.old + 71 ≤ 4096 }
    ensures text { out.new ≡ out.old ++ verb_and_arguments words }
    ensures short { length out.new ≤ length out.old + 71 }
{
    add_verb(
        out,
        CallKind::of_number(words.kind()),
        Values::of_words(words),
    );
}

fn add_mode(out: &mut Outbox, mode: Mode)
    requires { length out.old + 4 ≤ 4096 }
    ensures text { out.new ≡ out.old ++ mode_text mode }
    ensures short { length out.new ≤ length out.old + 4 }
{
    match mode {
        Mode::Plain => {}
        Mode::Int => out.add(b"int "),
        Mode::Try => out.add(b"try "),
    }
}

/// Adds a call without its object: its mode, its verb and its arguments, at most 75 bytes. Of
/// words of no call the mode alone is added.
pub fn add_call(out: &mut Outbox, words: CallWords)
    requires { length out.old + 75 ≤ 4096 }
    ensures text { out.new ≡ out.old ++ call_text words }
    ensures short { length out.new ≤ length out.old + 75 }
{
    add_mode(out, words.mode());
    add_verb_and_arguments(out, words);
}

/// Adds the line of a call on an object of this name, at most 93 bytes.
pub(crate) fn add_line(out: &mut Outbox, name: &str, words: CallWords)
    requires room { length out.old + 93 ≤ 4096 }
    requires short { length name.now ≤ 16 }
    ensures { out.new ≡ out.old ++ named_text name.now words }
{
    add_mode(out, words.mode());
    out.add(name.as_bytes());
    out.add(b" ");
    add_verb_and_arguments(out, words);
    out.add(b"\n");
}

/// Adds the line of a version. The first has none.
pub(crate) fn add_version(out: &mut Outbox, version: Version)
    requires { length out.old + 10 ≤ 4096 }
    ensures { out.new ≡ out.old ++ version_text version }
{
    if version.is_second() {
        out.add(b"version 2\n");
    }
}

/// Adds the line that declares an object.
pub fn add_declaration(out: &mut Outbox, is_space: bool, name: &str)
    requires room { length out.old + 23 ≤ 4096 }
    requires short { length name.now ≤ 16 }
    ensures text { out.new ≡ out.old ++ declaration_text record {
      name = name.now;
      is_space = is_space;
    } }
    ensures short { length out.new ≤ length out.old + 23 }
{
    out.add(if is_space { b"space " } else { b"table " });
    out.add(name.as_bytes());
    out.add(b"\n");
}
