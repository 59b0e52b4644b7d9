// What the calls promise, and noninterference of the code: definitions and laws (specs/, proofs/), and the refusals that the calls answer.
#![tactic(auto)]

ghost use Rattle.std.specs.Prelude.{◌≡◌};
ghost use Rattle.promise.specs.Refusals.{code};

// A refusal, by its cause. Its number is that of its row of the table.
#[derive(Clone, Copy, Debug, PartialEq, Eq)]
pub enum Refusal {
    // The store is not 41,088 bytes long.
    StoreLength = 1,
    // The subject is no label.
    Subject,
    // A partition that the subject dominates is not well formed.
    NotWellFormed,
    // The path is not valid.
    Path,
    // The value is not allowed.
    Value,
    // The path does not end in the subject's label.
    OtherLabel,
    // The path or its parent is not in view, or the element is not live.
    Absent,
    // The element is live already.
    Live,
    // The label's partition has no room.
    Full,
    // The output is too short for the view.
    OutputShort,
    // The number of sizes of a grade is not 1 to 64.
    Sizes,
    // A path of the grade is in view and is no live measure's.
    NoMeasure,
    // The XML is not in form.
    Form,
    // An element of the XML bears another label than the subject's, or is marked as removed.
    NotOwn,
}

// The number of a refusal.
impl From<Refusal> for u32 {
    ghost from_gives = { λ refusal number. number ≡ code refusal };

    fn from(refusal: Refusal) -> u32 {
        refusal as u32
    }
}
