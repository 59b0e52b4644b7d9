// The tags and values of a view as XML put into an output.
#![tactic(auto)]

ghost use Rattle.std.proofs.Math.Option.{none, some};
ghost use Rattle.std.specs.Prelude.{[], ◌++◌, ◌+◌, ◌≤◌, ◌<◌, length, T};
ghost use Rattle.model.specs.Lists.{gather};
ghost use Rattle.model.specs.Value.{allowed};
ghost use Rattle.model.specs.Xml.{escaped, value_xml, start_tag, end_tag, outer_tag};
ghost use Rattle.kind.specs.Code.{code};
ghost use Rattle.text.specs.Output.{Puts};
ghost use Rattle.text.specs.Step.{step_of};
ghost use Rattle.xml.specs.Pieces.{tag_start};

use kind::Kind;
use text::{Output, Step};

// A character of a text, escaped where it must be.
fn character(out: &mut Output, x: u8)
    requires { out.old.at + 5 < 4294967296 }
    ensures { Puts out.old (escaped x) out.new }
{
    match x {
        b'&' => out.put_bytes(b"&amp;"),
        b'<' => out.put_bytes(b"&lt;"),
        b'>' => out.put_bytes(b"&gt;"),
        _ => out.put_byte(x),
    }
}

// The characters of a text.
fn characters(out: &mut Output, s: &[u8])
    requires { (out.old.at + 80 < 4294967296) × (length s.now ≤ 16) }
    ensures { Puts out.old (gather escaped s.now) out.new }
{
    for x in s {
        character(out, *x);
    }
}

// A value: a number in decimal, and else its characters, if any.
fn value(out: &mut Output, kind: Kind, value: &[u8])
    requires at_bound { out.old.at + 80 < 4294967296 }
    requires t { T (allowed (code kind) value.now) }
    ensures { Puts out.old (value_xml (code kind) value.now) out.new }
{
    let rule = kind.rule();
    if rule.number {
        out.put_signed(text::measure_of(value));
    } else {
        characters(out, value);
    }
}

// The beginning of a tag: the name, and the label up to its last digit.
fn start(out: &mut Output, step: Step)
    requires { out.old.at + 30 < 4294967296 }
    ensures { Puts out.old (tag_start (step_of step)) out.new }
{
    out.put_bytes(b"<e");
    out.put_decimal(step.name);
    out.put_bytes(b" label=\"");
    out.put_decimal(step.label);
}

// The tag of a removed element.
pub fn removed(out: &mut Output, step: Step)
    requires { out.old.at + 64 < 4294967296 }
    ensures { Puts out.old (start_tag (step_of step) none) out.new }
{
    start(out, step);
    out.put_bytes(b"\" preserve=\"REMOVED\" kind=\"-\">");
}

// The tag of a live element.
fn present(out: &mut Output, step: Step, kind: Kind)
    requires { out.old.at + 64 < 4294967296 }
    ensures { Puts out.old (start_tag (step_of step) (some (record { kind = code kind; value = [] }))) out.new }
{
    start(out, step);
    out.put_bytes(b"\" preserve=\"PRESENT\" kind=\"");
    out.put_byte(kind.letter());
    out.put_bytes(b"\">");
}

// The tag of a live element, and its value.
pub fn live(out: &mut Output, step: Step, kind: Kind, shown: &[u8])
    requires at_bound { out.old.at + 144 < 4294967296 }
    requires t { T (allowed (code kind) shown.now) }
    ensures { Puts out.old (start_tag (step_of step) (some (record { kind = code kind; value = shown.now })) ++ value_xml (code kind) shown.now) out.new }
{
    present(out, step, kind);
    value(out, kind, shown);
}

// An end tag.
pub fn end(out: &mut Output, name: u32)
    requires { out.old.at + 14 < 4294967296 }
    ensures { Puts out.old (end_tag name) out.new }
{
    out.put_bytes(b"</e");
    out.put_decimal(name);
    out.put_byte(b'>');
}

// The outer tag of a subject's view.
pub fn head(out: &mut Output, subject: u32)
    requires { out.old.at + 30 < 4294967296 }
    ensures { Puts out.old (outer_tag subject) out.new }
{
    out.put_bytes(b"<dossier subject=\"");
    out.put_decimal(subject);
    out.put_bytes(b"\">");
}
