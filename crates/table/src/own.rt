// Rows 6 and 7 of an element that is there, and its slot.
ghost use Rattle.std.specs.Prelude.{T};
ghost use Rattle.model.specs.Path.{steps_of};
ghost use Rattle.model.specs.Rows.{good_path};
ghost use Rattle.table.specs.Owned.{Owns};

use promise::Refusal;
use store::Reader;

// Rows 6 and 7 of an update or a delete: the path ends in the subject's label, and the element is live. One search tells the slot of the
// subject's partition in which it stands.
pub fn own_slot(reader: &Reader<'_>, path: &[u8]) -> Result<usize, Refusal>
    requires { T (good_path path.now) }
    ensures { Owns result reader.now.subject reader.now.store.now (steps_of path.now) }
{
    if !path::ends_in(path, reader.subject) {
        return Err(Refusal::OtherLabel);
    }
    match reader.partition_of(reader.subject).find(path) {
        Ok(at) => Ok(at),
        Err(_) => Err(Refusal::Absent),
    }
}
