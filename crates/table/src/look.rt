// Rows 4 and 7 of a reading call.
ghost use Rattle.std.specs.Prelude.{◌≡◌};
ghost use Rattle.model.specs.Model.{open_model};
ghost use Rattle.model.specs.Rows.{row_code, view_path_rows, look_rows};
ghost use Rattle.promise.specs.Refusals.{number_of};

use crate::check_path;
use promise::Refusal;
use store::Reader;

// Row 4 of a reading call, which may be asked for the root too.
pub fn check_view_path(path: &[u8]) -> Result<(), Refusal>
    ensures { number_of result ≡ row_code (view_path_rows path.now) }
{
    if path.is_empty() {
        return Ok(());
    }
    check_path(path)
}

// Rows 4 and 7 of a reading call: the path, then whether it is in view.
pub fn check_seen(reader: &Reader<'_>, path: &[u8]) -> Result<(), Refusal>
    ensures { number_of result ≡ row_code (look_rows reader.now.subject (open_model reader.now.store.now) path.now) }
{
    check_view_path(path)?;
    if !reader.in_view(path) {
        return Err(Refusal::Absent);
    }
    Ok(())
}
