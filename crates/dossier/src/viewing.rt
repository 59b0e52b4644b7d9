// View: the listing of a path.
ghost use Rattle.promise.specs.Did.{Viewed};
ghost use Rattle.promise.specs.Refusals.{number_of, count_of};

use promise::Refusal;

// Lists the path and all that is in view below it into the output: how many bytes were written.
pub fn view(store: &[u8], subject: u32, path: &[u8], output: &mut [u8]) -> Result<usize, Refusal>
    ensures { Viewed subject path.now store.now output.old (number_of result) (count_of result) output.new }
{
    let label = table::open(store, subject)?;
    let reader = table::check_formed(store, label)?;
    table::check_seen(&reader, path)?;
    let total = listing::list(&reader, path, output);
    if output.len() < total {
        return Err(Refusal::OutputShort);
    }
    Ok(total)
}
