// A step of a path, as it is shown.
ghost use Rattle.std.specs.Prelude.{◌<◌};

// Its name and its label.
#[derive(Clone, Copy)]
pub struct Step {
    pub name: u32,
    pub label: u32,
    pub ghost fits: { (name < 4294967296) × (label < 4294967296) },
}
