// Insert: an element comes, with the groups that are missing above it.
ghost use Rattle.promise.specs.Did.{Inserted};
ghost use Rattle.promise.specs.Refusals.{number_of, count_of};

use promise::Refusal;

// Inserts an element into the subject's partition: how many groups were made above it.
pub fn insert(
    store: &mut [u8],
    subject: u32,
    path: &[u8],
    kind: u32,
    value: &[u8],
) -> Result<usize, Refusal>
    ensures { Inserted subject path.now kind value.now store.old (number_of result) (count_of result) store.new }
{
    let label = table::open(store, subject)?;
    let reader = table::check_formed(store, label)?;
    let known = table::check_brought(path, kind, value)?;
    let place = table::place(&reader, path)?;
    store::insert(
        store,
        label,
        place.at,
        path,
        place.seen,
        u8::from(known),
        value,
    );
    Ok(path.len() / 3 - 1 - place.seen)
}
