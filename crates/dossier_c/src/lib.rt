// The calls as C functions. A slice is passed as a pointer and a length; the result is returned by value.
#![tactic(auto)]

ghost use Rattle.std.specs.Prelude.{◌≡◌};
ghost use Rattle.promise.specs.Did.{Viewed, Inserted, Updated, Deleted, ViewedXml, Graded, InsertedXml};
ghost use Rattle.promise.specs.Migrated.{Migrated};
ghost use Rattle.promise.specs.Refusals.{number_of, count_of};
ghost use Rattle.dossier_grade.specs.Sights.{step_in, remainder_in};

use dossier_grade::Even;
use promise::Refusal;

// What a call answers: 0 or the number of its refusal, and its count.
#[repr(C)]
#[derive(Drop)]
pub struct Answer {
    pub number: u32,
    pub count: u64,
}

// What an even grade answers: 0 or the number of its refusal, and the step and the remainder.
#[repr(C)]
#[derive(Drop)]
pub struct Grade {
    pub number: u32,
    pub step: i64,
    pub remainder: u32,
}

// What the migration answers: 0 or the number of its refusal, and the mask.
#[repr(C)]
#[derive(Drop)]
pub struct Migration {
    pub number: u32,
    pub mask: u32,
}

// A count, or the number of a refusal and 0.
impl From<Result<usize, Refusal>> for Answer {
    ghost from_gives = { λ done told. told ≡ record { number = number_of done; count = count_of done } };

    fn from(done: Result<usize, Refusal>) -> Answer {
        match done {
            Ok(count) => Answer {
                number: 0,
                count: count as u64,
            },
            Err(refusal) => Answer {
                number: u32::from(refusal),
                count: 0,
            },
        }
    }
}

// A step and a remainder, or the number of a refusal, 0 and 0.
impl From<Result<Even, Refusal>> for Grade {
    ghost from_gives = { λ done told. told ≡ record { number = number_of done; step = step_in done; remainder = remainder_in done } };

    fn from(done: Result<Even, Refusal>) -> Grade {
        match done {
            Ok(even) => Grade {
                number: 0,
                step: even.step,
                remainder: even.remainder,
            },
            Err(refusal) => Grade {
                number: u32::from(refusal),
                step: 0,
                remainder: 0,
            },
        }
    }
}

// A mask, or the number of a refusal and 0.
impl From<Result<u32, Refusal>> for Migration {
    ghost from_gives = { λ done told. told ≡ record { number = number_of done; mask = count_of done } };

    fn from(done: Result<u32, Refusal>) -> Migration {
        match done {
            Ok(mask) => Migration { number: 0, mask },
            Err(refusal) => Migration {
                number: u32::from(refusal),
                mask: 0,
            },
        }
    }
}

// Lists the path and everything in the subject's view below it into the output: how many bytes were written.
#[unsafe(no_mangle)]
pub extern "C" fn dossier_view(store: &[u8], subject: u32, path: &[u8], output: &mut [u8]) -> Answer
    ensures { Viewed subject path.now store.now output.old result.number result.count output.new }
{
    Answer::from(dossier::view(store, subject, path, output))
}

// Inserts an element into the subject's partition.
#[unsafe(no_mangle)]
pub extern "C" fn dossier_insert(
    store: &mut [u8],
    subject: u32,
    path: &[u8],
    kind: u32,
    value: &[u8],
) -> Answer
    ensures { Inserted subject path.now kind value.now store.old result.number result.count store.new }
{
    Answer::from(dossier::insert(store, subject, path, kind, value))
}

// Updates an element: it gets the kind and the value, and what is below it stays. It counts one, the element.
#[unsafe(no_mangle)]
pub extern "C" fn dossier_update(
    store: &mut [u8],
    subject: u32,
    path: &[u8],
    kind: u32,
    value: &[u8],
) -> Answer
    ensures { Updated subject path.now kind value.now store.old result.number result.count store.new }
{
    Answer::from(dossier::update(store, subject, path, kind, value))
}

// Deletes the path and all of the subject's label that extends it: how many elements went.
#[unsafe(no_mangle)]
pub extern "C" fn dossier_delete(store: &mut [u8], subject: u32, path: &[u8]) -> Answer
    ensures { Deleted subject path.now store.old result.number result.count store.new }
{
    Answer::from(dossier::delete(store, subject, path))
}

// Writes the path and everything in the subject's view below it into the output as XML: how many bytes were written.
#[unsafe(no_mangle)]
pub extern "C" fn dossier_view_xml(
    store: &[u8],
    subject: u32,
    path: &[u8],
    output: &mut [u8],
) -> Answer
    ensures { ViewedXml subject path.now store.now output.old result.number result.count output.new }
{
    Answer::from(dossier_xml::view_xml(store, subject, path, output))
}

// The even grade from the measure at one path to the measure at another in n sizes: the step, rounded down, and the remainder.
#[unsafe(no_mangle)]
pub extern "C" fn dossier_grade(
    store: &[u8],
    subject: u32,
    base: &[u8],
    top: &[u8],
    n: u32,
) -> Grade
    ensures { Graded subject base.now top.now n store.now result.number result.step result.remainder }
{
    Grade::from(dossier_grade::grade(store, subject, base, top, n))
}

// Takes in a whole style as XML, all of its elements or none, below the parent in the subject's partition: how many came.
#[unsafe(no_mangle)]
pub extern "C" fn dossier_insert_xml(
    store: &mut [u8],
    subject: u32,
    parent: &[u8],
    text: &[u8],
) -> Answer
    ensures { InsertedXml subject parent.now text.now store.old result.number result.count store.new }
{
    Answer::from(dossier_intake::insert_xml(store, subject, parent, text))
}

// Gives each partition that is well formed in the order of before 7/14 the same elements in path order: the mask of the others.
#[unsafe(no_mangle)]
pub extern "C" fn dossier_migrate(store: &mut [u8]) -> Migration
    ensures { Migrated store.old (record { number = result.number; mask = result.mask }) store.new }
{
    Migration::from(dossier_migrate::migrate(store))
}
