// The rules of the calculus, numbered as document 01 numbers them: 1 to 3 pass tokens, 4 to 7 begin and end a transaction
// (attempt), 8 to 13 move inside one.
ghost use Rattle.std.specs.Prelude.{◌≡◌};
ghost use Rattle.answers.specs.Answers.{number_of_rule};

// Each has its number.
#[derive(Clone, Copy, PartialEq, Eq)]
pub enum Rule {
    Out = 1,
    In = 2,
    Rep = 3,
    Atst = 4,
    Atre = 5,
    Atfail = 6,
    Atok = 7,
    Ardok = 8,
    Ardf = 9,
    Awr = 10,
    Aoi = 11,
    Aof = 12,
    Aoe = 13,
}

impl Rule {
    // The number that C and document 01 have for it.
    #[tactic(auto, unfolding(crate::specs::Answers::number_of_rule))]
    pub fn number(self) -> u8
        ensures { result ≡ number_of_rule self }
    {
        self as u8
    }
}
