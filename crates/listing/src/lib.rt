// The listing of what a subject sees, written into an output.
#![tactic(auto)]

mod lines;

ghost use Rattle.std.specs.Prelude.{◌≡◌, ◌<◌, ◌≤◌, length, get_or};
ghost use Rattle.model.specs.Path.{steps_of, parent};
ghost use Rattle.model.specs.Model.{open_model};
ghost use Rattle.model.specs.View.{listing, seen_below};
ghost use Rattle.path.specs.Common.{common};
ghost use Rattle.text.specs.Overlay.{Wrote, laid_in};
ghost use Rattle.text.specs.Output.{Puts};
ghost use Rattle.order.specs.Refs.{element_of};
ghost use Rattle.listing.specs.Walk.{walk, walk_lines};
ghost use Rattle.listing.specs.Listed.{path_above};

pub use lines::step;
use order::Seen;
use store::Reader;
use text::Output;

// How many steps the path of element i shares with the path before it.
fn shared_above(seen: &Seen<'_, '_>, i: usize) -> usize
    requires { i < length seen.now.refs.now }
    ensures { result ≡ common (path_above seen.now.reader.store.now (steps_of seen.now.path.now) seen.now.refs.now i) (element_of seen.now.reader.store.now (get_or seen.now.refs.now i 0)).path }
{
    if i == 0 {
        return seen.steps_above();
    }
    slot::compare(seen.slot(i - 1), seen.slot(i)).shared
}

// How many lines the elements have, each with the removed ones above it.
fn count_lines(seen: &Seen<'_, '_>) -> usize
    ensures value { result ≡ length (walk (parent (steps_of seen.now.path.now)) (seen_below seen.now.reader.subject (open_model seen.now.reader.store.now) (steps_of seen.now.path.now))) }
    ensures upper_bound { result ≤ 6144 }
{
    let mut lines: usize = 0;
    for i in 0..seen.refs.len() {
        lines += seen.slot(i).slot.depth() - shared_above(seen, i);
    }
    lines
}

// Puts these lines.
fn put_walk(seen: &Seen<'_, '_>, out: &mut Output)
    requires { out.old.at ≤ 64 }
    ensures { Puts out.old (walk_lines (parent (steps_of seen.now.path.now)) (seen_below seen.now.reader.subject (open_model seen.now.reader.store.now) (steps_of seen.now.path.now))) out.new }
{
    for i in 0..seen.refs.len() {
        lines::put_element(out, seen.slot(i).slot, shared_above(seen, i));
    }
}

// Puts the head, which tells the number of lines, and the lines.
fn put_all(seen: &Seen<'_, '_>, count: u32, out: &mut [u8]) -> usize
    requires { count ≡ length (walk (parent (steps_of seen.now.path.now)) (seen_below seen.now.reader.subject (open_model seen.now.reader.store.now) (steps_of seen.now.path.now))) }
    ensures { Wrote out.old 0 (listing seen.now.reader.subject (open_model seen.now.reader.store.now) (steps_of seen.now.path.now)) out.new result }
{
    let mut to = Output { bytes: out, at: 0 };
    line::head(&mut to, u32::from(seen.reader.subject), count);
    put_walk(seen, &mut to);
    to.at
}

// The listing's length: a dry run, in which nothing is written.
fn measure(seen: &Seen<'_, '_>, count: u32) -> usize
    requires { count ≡ length (walk (parent (steps_of seen.now.path.now)) (seen_below seen.now.reader.subject (open_model seen.now.reader.store.now) (steps_of seen.now.path.now))) }
    ensures { result ≡ length (listing seen.now.reader.subject (open_model seen.now.reader.store.now) (steps_of seen.now.path.now)) }
{
    put_all(seen, count, &mut [])
}

// Puts the listing, if the output has room: its length. It is measured first, but where the output has room for so many lines of
// any length.
fn put_listing(seen: &Seen<'_, '_>, out: &mut [u8]) -> usize
    ensures value { result ≡ length (listing seen.now.reader.subject (open_model seen.now.reader.store.now) (steps_of seen.now.path.now)) }
    ensures out_after { out.new ≡ laid_in (listing seen.now.reader.subject (open_model seen.now.reader.store.now) (steps_of seen.now.path.now)) out.old }
{
    let lines = count_lines(seen);
    let count = lines as u32;
    if 64 * lines + 64 <= out.len() {
        return put_all(seen, count, out);
    }
    let total = measure(seen, count);
    if out.len() < total {
        return total;
    }
    put_all(seen, count, out)
}

// Puts the listing of the path, if the output has room: its length.
pub fn list(reader: &Reader<'_>, path: &[u8], out: &mut [u8]) -> usize
    ensures value { result ≡ length (listing reader.now.subject (open_model reader.now.store.now) (steps_of path.now)) }
    ensures out_after { out.new ≡ laid_in (listing reader.now.subject (open_model reader.now.store.now) (steps_of path.now)) out.old }
{
    let mut refs = [0u16; 1024];
    let mut spare = [0u16; 1024];
    let seen = order::order(reader, path, &mut refs, &mut spare);
    put_listing(&seen, out)
}
