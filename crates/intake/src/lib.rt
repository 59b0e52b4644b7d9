// The elements of a text put into a partition, in the text's order, by what was kept of each while it was read.
#![tactic(auto)]

ghost use Rattle.std.specs.Prelude.{◌≡◌, [], ◌∷◌, ◌++◌, ◌≤◌, ◌<◌, length};
ghost use Rattle.model.specs.Path.{steps_of};
ghost use Rattle.model.specs.Call.{added};
ghost use Rattle.model.specs.Partition.{layout, read_partition};
ghost use Rattle.kind.specs.Code.{code};
ghost use Rattle.partition.specs.Place.{place_of, Room};
ghost use Rattle.intake.specs.Putting.{above, Comes, Took};
ghost use Rattle.intake.specs.Progress.{step_of, Below, Stepped, Way, Went};

use kind::Kind;
use xml_read::Mark;

// At a number of steps: the name of the element that was put in last there, or 0, and the slot of the one that it is inside.
#[derive(Clone, Copy)]
struct Last {
    name: u64,
    slot: usize,
}

// Puts an element into a partition, which has room and no element at the path. Its place is looked for behind a slot first. The result is
// its slot, which helps to find the next; no contract speaks of it.
fn put(part: &mut [u8], near: usize, path: &[u8], kind: Kind, value: &[u8]) -> usize
    requires room { Room part.old (place_of (steps_of path.now) (read_partition part.old)) (steps_of path.now) }
    requires path_len_bound { (length path.now ≤ 20) × (length value.now ≤ 16) }
    ensures { part.new ≡ layout (added (steps_of path.now) (record { kind = code kind; value = value.now }) (read_partition part.old)) }
{
    let at = match (partition::Ordered { bytes: part }).find_near(near, path) {
        Ok(at) | Err(at) => at,
    };
    partition::insert(part, at, path, u8::from(kind), value);
    at
}

// Puts an element in, which bears the label: its step is written into the path, behind those above it. The result is as of `put`.
fn put_below(
    part: &mut [u8],
    near: usize,
    path: &mut [u8],
    label: u8,
    mark: Mark,
    kind: Kind,
    value: &[u8],
) -> usize
    requires { Below part.old path.old mark.steps (step_of label mark) × (length value.now ≤ 16) }
    ensures stepped { Stepped path.old mark.steps (step_of label mark) path.new }
    ensures part_after { part.new ≡ layout (added (above mark.steps path.old ++ (step_of label mark ∷ [])) (record { kind = code kind; value = value.now }) (read_partition part.old)) }
{
    path::put_step(path, mark.steps, mark.name, u64::from(label));
    let end = 3 * mark.steps + 3;
    put(part, near, &path[0..end], kind, value)
}

// Puts in the element of a mark, which bears the label. The result is as of `put`.
fn put_read(
    part: &mut [u8],
    text: &[u8],
    path: &mut [u8],
    near: usize,
    label: u8,
    mark: Mark,
) -> usize
    requires { Way part.old text.now path.old label mark }
    ensures { Went part.old text.now path.old label mark part.new path.new }
{
    let Some(kind) = mark.shown else {
        return near;
    };
    let mut value = [0u8; 16];
    let Some((size, _)) = scan_value::value_at(text, mark.place, mark.shown, &mut value) else {
        return near;
    };
    put_below(part, near, path, label, mark, kind, &value[..size])
}

// The slot behind which an element is looked for first: that of the element put in last, if the name is above that of the sibling before
// it, else its parent's. Any slot would do.
fn near_of(last: &[Last; 9], steps: usize, name: u64, slot: usize) -> usize
    requires { steps < 8 }
{
    if last[steps].name < name {
        return slot;
    }
    last[steps].slot
}

// Keeps the name of an element that was put in for the next one beside it, and its slot for those inside it.
fn keep(last: &mut [Last; 9], steps: usize, name: u64, slot: usize)
    requires { steps < 8 }
{
    last[steps].name = name;
    last[steps + 1] = Last { name: 0, slot };
}

// Puts the elements of the text, which bear the label and of which the marks were kept, below the first d steps of the path, whose later
// bytes are overwritten.
pub fn put_all(
    part: &mut [u8],
    text: &[u8],
    path: &mut [u8; 18],
    d: usize,
    label: u8,
    marks: &[Mark],
)
    requires { Comes part.old text.now path.old d label marks.now }
    ensures { Took part.old text.now path.old d part.new }
{
    let mut last = [Last { name: 0, slot: 0 }; 9];
    let mut slot: usize = 0;
    for mark in marks {
        let near = near_of(&last, mark.steps, mark.name, slot);
        slot = put_read(part, text, path, near, label, *mark);
        keep(&mut last, mark.steps, mark.name, slot);
    }
}
