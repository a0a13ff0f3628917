// The refusals by their numbers, 1 to 10 (01, Refusals, by who can cause them, and W1).

ghost use Rattle.std.specs.Prelude.{◌≡◌};
ghost use Rattle.words.specs.Refusal.{number};

// Three are ways of not being UTF-8: a byte that starts no sequence (1), a later byte that isn't allowed (9), the text cut inside a
// sequence (10).
#[derive(Clone, Copy, Debug, PartialEq, Eq)]
pub enum Refusal {
    NotUtf8Start = 1,
    TooLong = 2,
    TooDeep = 3,
    TokensDontFit = 4,
    NodesDontFit = 5,
    ValuesDontFit = 6,
    ReportsDontFit = 7,
    AlteredNodes = 8,
    NotUtf8Later = 9,
    NotUtf8Cut = 10,
}

impl Refusal {
    pub fn number(self) -> u32
        ensures { result ≡ number self }
    {
        self as u32
    }

    pub fn at(self, place: u32) -> Refused
        ensures { (result.refusal ≡ self) × (result.place ≡ place) }
    {
        Refused {
            refusal: self,
            place,
        }
    }
}

// "A refusal returns number and place" (01).
#[derive(Clone, Copy, Debug, PartialEq, Eq)]
pub struct Refused {
    pub refusal: Refusal,
    pub place: u32,
}

impl Refused {
    pub fn number(self) -> u32
        ensures { result ≡ number self.refusal }
    {
        self.refusal.number()
    }
}
