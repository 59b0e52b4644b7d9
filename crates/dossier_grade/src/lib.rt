// The even grade between two measures, on a lent store: any bytes, of any length.
#![tactic(auto)]

mod sighting;

ghost use Rattle.std.specs.Prelude.{◌≡◌};
ghost use Rattle.model.specs.Rows.{row_code, asked_rows};
ghost use Rattle.promise.specs.Did.{Graded};
ghost use Rattle.promise.specs.Refusals.{number_of};
ghost use Rattle.dossier_grade.specs.Sights.{step_in, remainder_in};

pub use grade::Even;
use promise::Refusal;

// The step and the remainder from the measure at one path to the measure at another in n sizes.
pub fn grade(store: &[u8], subject: u32, base: &[u8], top: &[u8], n: u32) -> Result<Even, Refusal>
    ensures { Graded subject base.now top.now n store.now (number_of result) (step_in result) (remainder_in result) }
{
    let label = table::open(store, subject)?;
    let reader = table::check_formed(store, label)?;
    check_asked(base, top, n)?;
    let at_base = sighting::seen_at(&reader, base)?;
    let at_top = sighting::seen_at(&reader, top)?;
    let from = at_base.ok_or(Refusal::NoMeasure)?;
    let to = at_top.ok_or(Refusal::NoMeasure)?;
    Ok(grade::between(from, to, n))
}

// Rows 4 and 11: both paths, then the number of sizes.
fn check_asked(base: &[u8], top: &[u8], n: u32) -> Result<(), Refusal>
    ensures { number_of result ≡ row_code (asked_rows base.now top.now n) }
{
    table::check_view_path(base)?;
    table::check_view_path(top)?;
    if n < 1 || 64 < n {
        return Err(Refusal::Sizes);
    }
    Ok(())
}
