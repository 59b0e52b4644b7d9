// The call that takes in a whole style as XML, on any bytes.
#![tactic(auto)]

mod rows;

ghost use Rattle.promise.specs.Did.{InsertedXml};
ghost use Rattle.promise.specs.Refusals.{number_of, count_of};
ghost use Rattle.dossier_intake.specs.Taking.{Ready, ActedXml};

use promise::Refusal;
use store::Reader;
use xml_read::Mark;

// Takes in the style that the text sends, below the parent: how many elements came.
pub fn insert_xml(
    store: &mut [u8],
    subject: u32,
    parent: &[u8],
    text: &[u8],
) -> Result<usize, Refusal>
    ensures { InsertedXml subject parent.now text.now store.old (number_of result) (count_of result) store.new }
{
    let label = table::open(store, subject)?;
    table::check_formed(store, label)?;
    table::check_view_path(parent)?;
    let none = Mark {
        steps: 0,
        name: 0,
        shown: None,
        place: 0,
    };
    let mut marks = [none; 32];
    let Some(tree) = xml_read::read(text, parent.len() / 3, label, &mut marks) else {
        return Err(Refusal::Form);
    };
    if !tree.own {
        return Err(Refusal::NotOwn);
    }
    take(store, label, parent, text, tree.name, tree.count, &marks)
}

// The tree of a text that has been read through, and what was kept of its elements: rows 7 to 9, then they come.
fn take(
    store: &mut [u8],
    label: u8,
    parent: &[u8],
    text: &[u8],
    name: u64,
    count: usize,
    marks: &[Mark; 32],
) -> Result<usize, Refusal>
    requires { Ready label parent.now text.now store.old name count marks.now }
    ensures { ActedXml label parent.now text.now store.old (number_of result) (count_of result) store.new }
{
    let mut path = [0u8; 18];
    rows::put_top(parent, name, label, &mut path);
    let n = parent.len() + 3;
    let reader = Reader {
        store,
        subject: label,
    };
    rows::check_tree(&reader, parent, &path[0..n], count)?;
    let start = 1284 * usize::from(label);
    let end = start + 1284;
    let above = parent.len() / 3;
    intake::put_all(
        &mut store[start..end],
        text,
        &mut path,
        above,
        label,
        &marks[..count],
    );
    Ok(count)
}
