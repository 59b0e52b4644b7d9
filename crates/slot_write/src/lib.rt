// Slots written in place, field by field; what a field leaves unused is 0.
#![tactic(auto)]

ghost use Rattle.std.specs.Prelude.{◌≡◌, [], ◌++◌, map, ◌-◌, ◌≤◌, length, take};
ghost use Rattle.model.specs.Lists.{gather};
ghost use Rattle.model.specs.Path.{steps_of};
ghost use Rattle.model.specs.Slot.{names_at, labels_at, kind_at, value_at, spare_at, slot_size, field, name_bytes, content_bytes, slot_bytes};

// Writes the names of a lent path.
// Names and labels have a loop each: one for both would take the width of a member and its place in a step as numbers, which is no plainer.
fn write_names(names: &mut [u8], path: &[u8])
    requires { (length names.old ≡ labels_at - names_at) × (length path.now ≤ 20) }
    ensures { names.new ≡ field names_at labels_at (gather name_bytes (steps_of path.now)) }
{
    names.fill(0);
    for i in 0..path.len() / 3 {
        names[2 * i] = path[3 * i];
        names[2 * i + 1] = path[3 * i + 1];
    }
}

// Writes the labels of a lent path.
fn write_labels(labels: &mut [u8], path: &[u8])
    requires { (length labels.old ≡ kind_at - labels_at) × (length path.now ≤ 20) }
    ensures { labels.new ≡ field labels_at kind_at (map (λ a. a.label) (steps_of path.now)) }
{
    labels.fill(0);
    for i in 0..path.len() / 3 {
        labels[i] = path[3 * i + 2];
    }
}

// Writes a value, and zeros behind it up to the slot's end.
fn write_value(s: &mut [u8], value: &[u8])
    requires { (length s.old ≡ slot_size - value_at) × (length value.now ≤ 16) }
    ensures { s.new ≡ field value_at spare_at value.now ++ field spare_at slot_size [] }
{
    s.fill(0);
    s[..value.len()].copy_from_slice(value);
}

// Writes another kind and value to a slot, whose path stays.
// The kind stays a number: docs/ASSURANCE.md names this function, and it takes any byte.
pub fn replace_content(slot: &mut [u8], kind: u8, value: &[u8])
    requires { (length slot.old ≡ slot_size) × (length value.now ≤ 16) }
    ensures { slot.new ≡ take kind_at slot.old ++ content_bytes (record { kind = kind; value = value.now }) }
{
    slot[19] = kind;
    slot[20] = value.len() as u8;
    write_value(&mut slot[21..40], value);
}

// Writes an element to a slot.
// The kind stays a number: docs/ASSURANCE.md names this function, and it takes any byte.
pub fn write(slot: &mut [u8], path: &[u8], kind: u8, value: &[u8])
    requires { (length slot.old ≡ slot_size) × (length path.now ≤ 20) × (length value.now ≤ 16) }
    ensures { slot.new ≡ slot_bytes (record { path = steps_of path.entry.now; content = record { kind = kind; value = value.now } }) }
{
    slot[0] = (path.len() / 3) as u8;
    write_names(&mut slot[1..13], path);
    write_labels(&mut slot[13..19], path);
    replace_content(slot, kind, value);
}
