// Rows 6 to 9 of an element that comes, and where it comes.
ghost use Rattle.std.specs.Prelude.{◌≡◌, not, T};
ghost use Rattle.model.specs.Path.{steps_of};
ghost use Rattle.model.specs.Model.{open_model};
ghost use Rattle.model.specs.View.{visible};
ghost use Rattle.model.specs.Groups.{seen_steps, own_behind};
ghost use Rattle.model.specs.Rows.{good_path};
ghost use Rattle.table.specs.Placed.{Absent, Searched, Places};

use promise::Refusal;
use store::Reader;

// Where an element comes: from a slot of the subject's partition on, with the groups that are missing behind so many first steps of its
// path, which are in view.
#[derive(Drop)]
pub struct Placed {
    pub at: usize,
    pub seen: usize,
}

// Whether a step that bears another label is missing, where the subject's own elements share so many first steps of the path, and so many
// stand before those of his label.
fn lacks_other(reader: &Reader<'_>, path: &[u8], held: usize, lower: usize) -> bool
    requires { Searched reader.now.store.now reader.now.subject path.now held lower }
    ensures { result ≡ not (own_behind reader.now.subject (seen_steps (visible reader.now.subject (open_model reader.now.store.now)) (steps_of path.now)) (steps_of path.now)) }
{
    if lower <= held {
        return false;
    }
    let end = 3 * lower;
    !reader.in_view_before(&path[0..end], reader.subject)
}

// Rows 7 and 9 of an element that is not there, and whose place is given: the steps above it, the free slots.
fn room_at(reader: &Reader<'_>, path: &[u8], at: usize) -> Result<Placed, Refusal>
    requires { Absent reader.now.store.now reader.now.subject path.now at }
    ensures { Places result reader.now.subject reader.now.store.now (steps_of path.now) }
{
    let part = reader.partition_of(reader.subject);
    let held = reach::steps_held(part, at, path);
    let lower = reach::steps_before(path, reader.subject);
    if lacks_other(reader, path, held, lower) {
        return Err(Refusal::Absent);
    }
    let seen = held.max(lower);
    let wanted = path.len() / 3 - seen;
    let count = part.count();
    if 32 - count < wanted {
        return Err(Refusal::Full);
    }
    Ok(Placed { at, seen })
}

// Rows 6 to 9 of an element that comes: the last label, then the element, which is in view if it is there, then the others. One search of
// the subject's own partition tells where it comes.
pub fn place(reader: &Reader<'_>, path: &[u8]) -> Result<Placed, Refusal>
    requires { T (good_path path.now) }
    ensures { Places result reader.now.subject reader.now.store.now (steps_of path.now) }
{
    if !path::ends_in(path, reader.subject) {
        return Err(Refusal::OtherLabel);
    }
    match reader.partition_of(reader.subject).find(path) {
        Ok(_) => Err(Refusal::Live),
        Err(at) => room_at(reader, path, at),
    }
}
