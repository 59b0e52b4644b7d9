// The step and the remainder of an even grade, from two measures.
#![tactic(auto)]

ghost use Rattle.std.specs.Prelude.{◌<◌, ◌-ℤ◌};
ghost use Rattle.model.specs.Grade as grades;
ghost use Rattle.model.specs.Grade.{whole_of};

// A step, rounded down, and what is left over.
#[derive(Drop)]
pub struct Even {
    pub step: i64,
    pub remainder: u32,
}

// From one measure to another in n sizes, both given by their 32 bits.
pub fn between(base: u32, top: u32, n: u32) -> Even
    requires { 0 < n }
    ensures { grades.Even n (whole_of top -ℤ whole_of base) result.step result.remainder }
{
    let by = i64::from(top.cast_signed()) - i64::from(base.cast_signed());
    let sizes = i64::from(n);
    Even {
        step: by.div_euclid(sizes),
        remainder: by.rem_euclid(sizes) as u32,
    }
}
