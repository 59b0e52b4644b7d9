// What a subject sees as XML, written into an output: elements inside each other, as they stand in the tree.
#![tactic(auto)]

mod tags;

ghost use Rattle.std.specs.Prelude.{◌≡◌, ◌∷◌, ◌<◌, length};
ghost use Rattle.model.specs.Path.{steps_of};
ghost use Rattle.model.specs.Model.{open_model};
ghost use Rattle.model.specs.Xml.{xml_view};
ghost use Rattle.text.specs.Overlay.{Wrote, laid_in};
ghost use Rattle.xml_view.specs.Nested.{inner, contents, tree, size};
ghost use Rattle.xml_view.specs.Places.{left, entry_of, opens, Place, Room, Put};

use order::Seen;
use store::Reader;
use text::Output;

// A place in the walk: a row of what is seen, and how many steps the path there has beside its last.
#[derive(Clone, Copy)]
struct Spot {
    row: usize,
    step: usize,
}

// The place behind another: the path's next step, or the first that the next path does not share.
fn following(seen: &Seen<'_, '_>, p: Spot) -> Spot
    requires place { Place seen.now.reader.store.now seen.now.refs.now p.row p.step }
    requires row_in_bounds { p.row < length seen.now.refs.now }
    ensures d_value { left seen.now.reader.store.now seen.now.refs.now p.row p.step ≡ entry_of seen.now.reader.store.now seen.now.refs.now p.row p.step ∷ left seen.now.reader.store.now seen.now.refs.now result.row result.step }
    ensures place { Place seen.now.reader.store.now seen.now.refs.now result.row result.step }
{
    let slot = seen.slot(p.row);
    if p.step + 1 < slot.slot.depth() {
        return Spot {
            row: p.row,
            step: p.step + 1,
        };
    }
    let row = p.row + 1;
    if seen.refs.len() <= row {
        return Spot { row, step: 0 };
    }
    Spot {
        row,
        step: slot::compare(slot, seen.slot(row)).shared,
    }
}

// Whether there is an element at a place, with more than `depth` steps.
fn is_inside(seen: &Seen<'_, '_>, p: Spot, depth: usize) -> bool
    requires { Place seen.now.reader.store.now seen.now.refs.now p.row p.step }
    ensures { result ≡ opens depth (left seen.now.reader.store.now seen.now.refs.now p.row p.step) }
{
    p.row < seen.refs.len() && depth <= p.step
}

// The element of a place: its tag, its value, its contents and its end tag. The place behind it.
#[cycle(put_contents_put_element)]
fn put_element(seen: &Seen<'_, '_>, p: Spot, out: &mut Output) -> Spot
    requires place { Place seen.now.reader.store.now seen.now.refs.now p.row p.step }
    requires row_in_bounds { p.row < length seen.now.refs.now }
    requires room { Room seen.now.reader.store.now seen.now.refs.now p.row p.step out.old.at }
    ensures { Put tree size seen.now.reader.store.now seen.now.refs.now p.row p.step out.old out.new result.row result.step }
{
    let slot = seen.slot(p.row).slot;
    tags::put_tag(slot, p.step, out);
    let next = put_contents(seen, following(seen, p), p.step + 1, out);
    xml::end(out, slot.step_name(p.step));
    next
}

// The elements from a place on that have more than `depth` steps, up to the first that has not.
#[cycle(put_contents_put_element)]
fn put_contents(seen: &Seen<'_, '_>, p: Spot, depth: usize, out: &mut Output) -> Spot
    requires place { Place seen.now.reader.store.now seen.now.refs.now p.row p.step }
    requires room { Room seen.now.reader.store.now seen.now.refs.now p.row p.step out.old.at }
    ensures { Put (contents depth) (inner depth) seen.now.reader.store.now seen.now.refs.now p.row p.step out.old out.new result.row result.step }
{
    let mut spot = p;
    // A `while`: where the walk goes on is known only when an element is written.
    while is_inside(seen, spot, depth) {
        spot = put_element(seen, spot, out);
    }
    spot
}

// Puts the outer tag with the elements inside it.
fn put_all(seen: &Seen<'_, '_>, out: &mut [u8]) -> usize
    ensures { Wrote out.old 0 (xml_view seen.now.reader.subject (open_model seen.now.reader.store.now) (steps_of seen.now.path.now)) out.new result }
{
    let mut to = Output { bytes: out, at: 0 };
    xml::head(&mut to, u32::from(seen.reader.subject));
    let above = seen.steps_above();
    let first = Spot {
        row: 0,
        step: above,
    };
    put_contents(seen, first, above, &mut to);
    to.put_bytes(b"</dossier>");
    to.at
}

// The XML's length: a dry run, in which nothing is written.
fn measure(seen: &Seen<'_, '_>) -> usize
    ensures { result ≡ length (xml_view seen.now.reader.subject (open_model seen.now.reader.store.now) (steps_of seen.now.path.now)) }
{
    put_all(seen, &mut [])
}

// Puts the XML, if the output has room: its length. It is measured first, but where the output has room for so many elements of any
// length, each with five removed ones above it.
fn put_xml(seen: &Seen<'_, '_>, out: &mut [u8]) -> usize
    ensures value { result ≡ length (xml_view seen.now.reader.subject (open_model seen.now.reader.store.now) (steps_of seen.now.path.now)) }
    ensures out_after { out.new ≡ laid_in (xml_view seen.now.reader.subject (open_model seen.now.reader.store.now) (steps_of seen.now.path.now)) out.old }
{
    if 416 * seen.refs.len() + 32 <= out.len() {
        return put_all(seen, out);
    }
    let total = measure(seen);
    if out.len() < total {
        return total;
    }
    put_all(seen, out)
}

// Puts the XML of the path, if the output has room: its length.
pub fn write(reader: &Reader<'_>, path: &[u8], out: &mut [u8]) -> usize
    ensures value { result ≡ length (xml_view reader.now.subject (open_model reader.now.store.now) (steps_of path.now)) }
    ensures out_after { out.new ≡ laid_in (xml_view reader.now.subject (open_model reader.now.store.now) (steps_of path.now)) out.old }
{
    let mut refs = [0u16; 1024];
    let mut spare = [0u16; 1024];
    let seen = order::order(reader, path, &mut refs, &mut spare);
    put_xml(&seen, out)
}
