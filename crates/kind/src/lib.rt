// Kinds: their numbers, what a value of a kind may be, and the letter that it is printed with.
#![tactic(auto)]

ghost use Rattle.std.specs.Prelude.{◌≡◌, ◌<◌, [], ◌∷◌};
ghost use Rattle.model.specs.Lists.{all};
ghost use Rattle.model.specs.Value.{allowed};
ghost use Rattle.model.specs.View.{letter};
ghost use Rattle.kind.specs.Code.{code, Decodes};
ghost use Rattle.kind.specs.Rule.{within, passes, rule_of};

// What a value is.
#[derive(Clone, Copy, Debug, PartialEq, Eq)]
pub enum Kind {
    Group,
    Measure,
    Text,
}

// A number that no kind has.
#[derive(Clone, Copy, Debug, PartialEq, Eq)]
pub struct UnknownKind;

// The number of a kind, as calls and slots have it.
impl From<Kind> for u8 {
    ghost from_gives = { λ kind n. n ≡ code kind };

    fn from(kind: Kind) -> u8 {
        match kind {
            Kind::Group => 0,
            Kind::Measure => 1,
            Kind::Text => 2,
        }
    }
}

// The kind with a number.
impl TryFrom<u32> for Kind {
    type Error = UnknownKind;

    ghost try_from_gives = { Decodes };

    fn try_from(n: u32) -> Result<Self, UnknownKind> {
        match n {
            0 => Ok(Kind::Group),
            1 => Ok(Kind::Measure),
            2 => Ok(Kind::Text),
            3..=u32::MAX => Err(UnknownKind),
        }
    }
}

impl Kind {
    // The kind with a number that one has, as that of a stored value.
    pub fn numbered(n: u8) -> Kind
        requires { n < 3 }
        ensures { code result ≡ n }
    {
        let Ok(kind) = Kind::try_from(u32::from(n)) else {
            unreachable!()
        };
        kind
    }

    // Whether the bytes are a value of the kind.
    pub fn allows(self, value: &[u8]) -> bool
        ensures { result ≡ allowed (code self) value.now }
    {
        self.rule().is_passed_by(value)
    }

    // Its rule.
    #[tactic(auto, unfolding(crate::specs::Rule::rule_of))]
    pub fn rule(self) -> Rule
        ensures { result ≡ rule_of self }
    {
        match self {
            Kind::Group => Rule {
                least: 0,
                most: 0,
                low: 0,
                high: 255,
                letter: b'G',
                number: false,
            },
            Kind::Measure => Rule {
                least: 4,
                most: 4,
                low: 0,
                high: 255,
                letter: b'M',
                number: true,
            },
            Kind::Text => Rule {
                least: 1,
                most: 16,
                low: 32,
                high: 126,
                letter: b'T',
                number: false,
            },
        }
    }

    // The letter that a value of the kind is printed with.
    pub fn letter(self) -> u8
        ensures { (result ∷ []) ≡ letter (code self) }
    {
        self.rule().letter
    }
}

// A value has least to most bytes, each low to high. It is printed with the letter, and as a number or as it is. The bounds are four
// numbers, since the definitions compare numbers: two ranges would be taken apart again in each clause, and are no plainer.
#[derive(Drop)]
pub struct Rule {
    pub least: usize,
    pub most: usize,
    pub low: u8,
    pub high: u8,
    pub letter: u8,
    pub number: bool,
}

// Whether the bytes are a value of the kind with a number; no bytes are one of a number that no kind has.
pub fn is_allowed(kind: u32, value: &[u8]) -> bool
    ensures { result ≡ allowed kind value.now }
{
    match Kind::try_from(kind) {
        Ok(kind) => kind.allows(value),
        Err(_) => false,
    }
}

impl Rule {
    // Whether a value has as many bytes as the rule says, each as it says.
    #[tactic(auto, unfolding(crate::specs::Rule::passes))]
    fn is_passed_by(&self, value: &[u8]) -> bool
        ensures { result ≡ passes self.now value.now }
    {
        self.least <= value.len()
            && value.len() <= self.most
            && in_range(value, self.low, self.high)
    }
}

// Whether each byte is low to high.
fn in_range(s: &[u8], low: u8, high: u8) -> bool
    ensures { result ≡ all (within low high) s.now }
{
    s.iter().all(|x| low <= *x && *x <= high)
}
