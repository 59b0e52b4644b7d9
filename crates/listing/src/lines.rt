// The lines that a slot's element has in a listing.
ghost use Rattle.std.specs.Prelude.{◌≡◌, [], ◌∷◌, ◌+◌, ◌<◌, take};
ghost use Rattle.model.specs.Slot.{depth, step_at, read_path, read_slot};
ghost use Rattle.model.specs.View.{path_line};
ghost use Rattle.text.specs.Output.{Puts};
ghost use Rattle.text.specs.Step.{step_of};
ghost use Rattle.listing.specs.Used.{Used, lines_from};

use kind::Kind;
use slot::Slot;
use text::{Output, Step};

// Step i of a slot's path, as it is shown.
pub fn step(slot: Slot, i: usize) -> Step
    requires { i < 6 }
    ensures { step_of result ≡ step_at slot.entry.bytes.now i }
{
    Step {
        name: slot.step_name(i),
        label: u32::from(slot.step_label(i)),
    }
}

// The line of a removed element: the first d + 1 steps of a slot's path.
fn put_above(out: &mut Output, slot: Slot, d: usize)
    requires at_bound { (out.old.at + 64 < 4294967296) × (d + 1 < depth slot.bytes.now) }
    requires used { Used slot.bytes.now }
    ensures { Puts out.old (path_line (read_slot slot.entry.bytes.now ∷ []) (take (d + 1) (read_path slot.entry.bytes.now))) out.new }
{
    line::removed(out, (d + 1) as u32, step(slot, d));
}

// The line of a slot's own element.
fn put_own(out: &mut Output, slot: Slot)
    requires at_bound { out.old.at + 64 < 4294967296 }
    requires used { Used slot.bytes.now }
    ensures { Puts out.old (path_line (read_slot slot.entry.bytes.now ∷ []) (read_path slot.entry.bytes.now)) out.new }
{
    let depth = slot.depth();
    let last = step(slot, depth - 1);
    let kind = Kind::numbered(slot.kind());
    let value = slot.value();
    line::live(out, depth as u32, last, kind, value);
}

// The lines of a slot's element: those of the removed elements above it whose paths have more than `from` steps, and its own.
pub fn put_element(out: &mut Output, slot: Slot, from: usize)
    requires at_bound { (out.old.at + 384 < 4294967296) × (from < depth slot.bytes.now) }
    requires used { Used slot.bytes.now }
    ensures { Puts out.old (lines_from from slot.entry.bytes.now) out.new }
{
    for d in from..slot.depth() - 1 {
        put_above(out, slot, d);
    }
    put_own(out, slot);
}
