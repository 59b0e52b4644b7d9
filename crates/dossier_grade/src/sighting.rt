// What a subject sees at a path.
ghost use Rattle.std.specs.Prelude.{◌≡◌, true, length, Ok, T};
ghost use Rattle.std.proofs.Math.Option.{some};
ghost use Rattle.model.specs.Path.{steps_of};
ghost use Rattle.model.specs.Value.{storable};
ghost use Rattle.model.specs.Slot.{slot_size, read_content};
ghost use Rattle.model.specs.Rows.{view_path};
ghost use Rattle.dossier_grade.specs.Sights.{sight_of, sight_at, PathPartition};

use kind::Kind;
use partition::{Ordered, Partition};
use promise::Refusal;
use slot::Slot;
use store::Reader;

// What is seen at a path: the 32 bits of a live measure, or something that is none; the refusal of row 7 where nothing is. The root is no
// measure's, and of a label that the subject does not dominate nothing is seen.
pub fn seen_at(reader: &Reader<'_>, path: &[u8]) -> Result<Option<u32>, Refusal>
    requires { T (view_path path.now) }
    ensures { result ≡ sight_at reader.now.subject reader.now.store.now (steps_of path.now) }
{
    if path.len() < 3 {
        return Ok(None);
    }
    let last = path[path.len() - 1];
    if !label::dominates(reader.subject, last) {
        return Err(Refusal::Absent);
    }
    seen_in(reader, path, reader.partition_of(last))
}

// What is seen at a path whose label's partition is given: its own element stands there, and one search tells it.
fn seen_in(reader: &Reader<'_>, path: &[u8], part: Ordered) -> Result<Option<u32>, Refusal>
    requires { PathPartition reader.now.store.now reader.now.subject path.now part.bytes.now }
    ensures { result ≡ sight_at reader.now.subject reader.now.store.now (steps_of path.now) }
{
    if let Ok(at) = part.find(path) {
        return Ok(content_of(Partition { bytes: part.bytes }.slot(at)));
    }
    if reader.in_view(path) {
        return Ok(None);
    }
    Err(Refusal::Absent)
}

// The measure of the element of a slot, if it is one.
fn content_of(slot: Slot) -> Option<u32>
    requires { T (storable (read_content slot.bytes.now)) }
    ensures { Ok result ≡ sight_of true (some (read_content slot.entry.bytes.now)) }
{
    let rule = Kind::numbered(slot.kind()).rule();
    if !rule.number {
        return None;
    }
    Some(text::measure_of(slot.value()))
}
