// Update: an element's kind and value become others, and all else stays.
ghost use Rattle.promise.specs.Did.{Updated};
ghost use Rattle.promise.specs.Refusals.{number_of, count_of};

use promise::Refusal;

// Updates an element: it gets the kind and the value, and what is below it stays. It counts one, the element.
pub fn update(
    store: &mut [u8],
    subject: u32,
    path: &[u8],
    kind: u32,
    value: &[u8],
) -> Result<usize, Refusal>
    ensures { Updated subject path.now kind value.now store.old (number_of result) (count_of result) store.new }
{
    let label = table::open(store, subject)?;
    let reader = table::check_formed(store, label)?;
    let known = table::check_brought(path, kind, value)?;
    let at = table::own_slot(&reader, path)?;
    store::replace(store, label, at, u8::from(known), value);
    Ok(1)
}
