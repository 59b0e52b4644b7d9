// The tag and the value of one element of a slot's path.
ghost use Rattle.std.specs.Prelude.{[], ◌∷◌, suc, ◌+◌, ◌<◌, take};
ghost use Rattle.model.specs.Slot.{depth, step_at, read_path, read_slot};
ghost use Rattle.model.specs.View.{content_at};
ghost use Rattle.text.specs.Output.{Puts};
ghost use Rattle.listing.specs.Used.{Used};
ghost use Rattle.xml_view.specs.Places.{opening};

use kind::Kind;
use slot::Slot;
use text::Output;

// The tag of the first d + 1 steps of a slot's path, with the value if these are the whole path: only then the element is live.
pub fn put_tag(slot: Slot, d: usize, out: &mut Output)
    requires at_bound { (out.old.at + 144 < 4294967296) × (d < depth slot.bytes.now) }
    requires used { Used slot.bytes.now }
    ensures { Puts out.old (opening (step_at slot.entry.bytes.now d) (content_at (read_slot slot.entry.bytes.now ∷ []) (take (suc d) (read_path slot.entry.bytes.now)))) out.new }
{
    let step = listing::step(slot, d);
    if d + 1 < slot.depth() {
        xml::removed(out, step);
    } else {
        xml::live(out, step, Kind::numbered(slot.kind()), slot.value());
    }
}
