// Delete: an element goes, with what the subject has below it.
ghost use Rattle.promise.specs.Did.{Deleted};
ghost use Rattle.promise.specs.Refusals.{number_of, count_of};

use promise::Refusal;

// Deletes the path and all of the subject's label that extends it: how many elements went.
pub fn delete(store: &mut [u8], subject: u32, path: &[u8]) -> Result<usize, Refusal>
    ensures { Deleted subject path.now store.old (number_of result) (count_of result) store.new }
{
    let label = table::open(store, subject)?;
    let reader = table::check_formed(store, label)?;
    table::check_path(path)?;
    let at = table::own_slot(&reader, path)?;
    Ok(store::remove(store, label, at, path))
}
