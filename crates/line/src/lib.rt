// The lines of a printed view put into an output.
#![tactic(auto)]

ghost use Rattle.std.proofs.Math.Option.{none, some};
ghost use Rattle.std.specs.Prelude.{[], ◌∷◌, ◌++◌, ◌+◌, ◌<◌, T};
ghost use Rattle.model.specs.Value.{allowed};
ghost use Rattle.model.specs.View.{letter, shown, head_line};
ghost use Rattle.kind.specs.Code.{code};
ghost use Rattle.text.specs.Output.{Puts};
ghost use Rattle.text.specs.Step.{step_of};
ghost use Rattle.line.specs.Line.{line_of, number_field, line_start};

use kind::Kind;
use text::{Output, Step};

// A number and a tab.
fn field(out: &mut Output, n: u32)
    requires { out.old.at + 11 < 4294967296 }
    ensures { Puts out.old (number_field n) out.new }
{
    out.put_decimal(n);
    out.put_byte(b'\t');
}

// Depth, name and label, each with a tab.
fn start(out: &mut Output, depth: u32, step: Step)
    requires { out.old.at + 33 < 4294967296 }
    ensures { Puts out.old (line_start depth (step_of step)) out.new }
{
    field(out, depth);
    field(out, step.name);
    field(out, step.label);
}

// The line of a removed element.
pub fn removed(out: &mut Output, depth: u32, step: Step)
    requires { out.old.at + 64 < 4294967296 }
    ensures { Puts out.old (line_of depth (step_of step) none) out.new }
{
    start(out, depth, step);
    out.put_bytes(b"R\t-\t-\n");
}

// Kind and value of a live element, up to the line's end.
fn content(out: &mut Output, kind: Kind, value: &[u8])
    requires at_bound { out.old.at + 19 < 4294967296 }
    requires t { T (allowed (code kind) value.now) }
    ensures { Puts out.old (letter (code kind) ++ (9 ∷ (shown (code kind) value.now ++ (10 ∷ [])))) out.new }
{
    out.put_byte(kind.letter());
    out.put_byte(b'\t');
    out.put_value(kind, value);
    out.put_byte(b'\n');
}

// The line of a live element.
pub fn live(out: &mut Output, depth: u32, step: Step, kind: Kind, value: &[u8])
    requires at_bound { out.old.at + 64 < 4294967296 }
    requires t { T (allowed (code kind) value.now) }
    ensures { Puts out.old (line_of depth (step_of step) (some (record { kind = code kind; value = value.now }))) out.new }
{
    start(out, depth, step);
    out.put_bytes(b"P\t");
    content(out, kind, value);
}

// The first line of a listing: the subject and how many lines follow.
pub fn head(out: &mut Output, subject: u32, lines: u32)
    requires { out.old.at + 64 < 4294967296 }
    ensures { Puts out.old (head_line subject lines) out.new }
{
    out.put_bytes(b"VIEW\t");
    field(out, subject);
    out.put_decimal(lines);
    out.put_byte(b'\n');
}
