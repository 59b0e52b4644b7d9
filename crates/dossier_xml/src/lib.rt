// The calls that read and write XML, on a lent store: any bytes, of any length.
#![tactic(auto)]

ghost use Rattle.promise.specs.Did.{ViewedXml};
ghost use Rattle.promise.specs.Refusals.{number_of, count_of};

use promise::Refusal;

// Writes the path and all that is in view below it into the output as XML: how many bytes were written.
// Its rows are those of dossier::view: one function for both would take the writer as a closure with a contract, and be no plainer.
pub fn view_xml(
    store: &[u8],
    subject: u32,
    path: &[u8],
    output: &mut [u8],
) -> Result<usize, Refusal>
    ensures { ViewedXml subject path.now store.now output.old (number_of result) (count_of result) output.new }
{
    let label = table::open(store, subject)?;
    let reader = table::check_formed(store, label)?;
    table::check_seen(&reader, path)?;
    let total = xml_view::write(&reader, path, output);
    if output.len() < total {
        return Err(Refusal::OutputShort);
    }
    Ok(total)
}
