// The table of refusals walked in groups that calls share: the refusal of the first row of a group that applies, or what is gone on with.
// Nothing is written here.
#![tactic(auto)]

mod look;
mod own;
mod placing;

ghost use Rattle.std.specs.Prelude.{◌≡◌, IfOk};
ghost use Rattle.model.specs.Rows.{row_code, path_rows, bring_rows};
ghost use Rattle.kind.specs.Code.{code};
ghost use Rattle.promise.specs.Refusals.{number_of};
ghost use Rattle.table.specs.Opening.{Lent, Opens, Forms};

use kind::Kind;
pub use look::{check_seen, check_view_path};
pub use own::own_slot;
pub use placing::{Placed, place};
use promise::Refusal;
use store::Reader;

// Rows 1 and 2: the store's length, then the subject. What is gone on with is his label.
pub fn open(store: &[u8], subject: u32) -> Result<u8, Refusal>
    ensures { Opens result subject store.now }
{
    if store.len() != 41088 {
        return Err(Refusal::StoreLength);
    }
    if 32 <= subject {
        return Err(Refusal::Subject);
    }
    Ok(subject as u8)
}

// Row 3: the partitions that the label dominates. What is gone on with is the label as a reader.
pub fn check_formed(store: &[u8], label: u8) -> Result<Reader<'_>, Refusal>
    requires { Lent store.now label }
    ensures formed { Forms result label store.now }
    ensures same { IfOk result (λ r. (r.store.now ≡ store.now) × (r.subject ≡ label)) }
{
    Reader::open(store, label).ok_or(Refusal::NotWellFormed)
}

// Row 4: the path.
pub fn check_path(path: &[u8]) -> Result<(), Refusal>
    ensures { number_of result ≡ row_code (path_rows path.now) }
{
    if !path::is_path(path) {
        return Err(Refusal::Path);
    }
    Ok(())
}

// Rows 4 and 5 of a call that brings a value: the path, then the kind and the value. What is gone on with is the kind.
pub fn check_brought(path: &[u8], kind: u32, value: &[u8]) -> Result<Kind, Refusal>
    ensures refused { number_of result ≡ row_code (bring_rows path.now (record { kind = kind; value = value.now })) }
    ensures known { IfOk result (λ k. code k ≡ kind) }
{
    check_path(path)?;
    match Kind::try_from(kind) {
        Ok(known) if known.allows(value) => Ok(known),
        _ => Err(Refusal::Value),
    }
}
