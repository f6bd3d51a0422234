// The refusals, numbered as document 01 numbers them: why a table, a hall, a choice or a buffer is refused.
ghost use Rattle.std.specs.Prelude.{◌≡◌};
ghost use Rattle.answers.specs.Answers.{reason_number};

// Each has its number.
#[derive(Clone, Copy, PartialEq, Eq)]
pub enum Reason {
    // The refusals of a table.
    UnknownRecord = 1,
    RecordCutShort = 2,
    TooManyTerms = 3,
    ChannelOutOfRange = 4,
    ForwardReference = 5,
    ClassMismatch = 6,
    OverLimit = 7,
    BadTokens = 8,
    WrongEnd = 9,
    // The refusals of a hall: by its length, and by its form.
    WrongLength = 10,
    Malformed = 11,
    // The refusals of an entry of a schedule (document 01's choice). By its bytes: no such kind of entry, and an entry cut
    // short.
    UnknownKind = 12,
    CutShort = 13,
    // By the component (station) and its nodes: no component at the position, one of another form than the entry asks
    // for, no such node, no rule for the node.
    NoComponent = 14,
    WrongComponent = 15,
    NoNode = 16,
    NoRule = 17,
    // By what is there to take, by the components afterwards, and by the channel (tray) to put into.
    EmptyChannel = 18,
    TooManyComponents = 19,
    FullChannel = 20,
    // The refusal of a buffer that is too short for a sentence.
    ShortBuffer = 21,
}

// A refusal: why, and the place of what is refused.
#[derive(Clone, Copy, PartialEq, Eq)]
pub struct Refusal {
    pub reason: Reason,
    pub place: usize,
}

impl Reason {
    // The number that C and document 01 have for it.
    #[tactic(auto, unfolding(crate::specs::Answers::reason_number))]
    pub fn number(self) -> u8
        ensures { result ≡ reason_number self }
    {
        self as u8
    }

    // The refusal at a place.
    pub fn at(self, place: usize) -> Refusal
        ensures { result ≡ record { reason = self; place = place } }
    {
        Refusal {
            reason: self,
            place,
        }
    }
}
