// A choice: an entry of a schedule (document 01's list of choices).
ghost use Rattle.std.specs.Prelude.{◌≡◌};
ghost use Rattle.answers.specs.Answers.{entry_of};
ghost use Rattle.answers.specs.Answered.{choice_words};

// Kinds of entries: to act, and to move inside a transaction (attempt).
pub const KIND_ACT: u8 = 1;

pub const KIND_INSIDE: u8 = 2;

// An entry (choice): to act at a position, or to move inside the transaction at a position, at a node.
#[derive(Clone, Copy)]
pub enum Entry {
    Act { position: u8 },
    Inside { position: u8, node: u8 },
}

// A choice as its kind, position and node; the node of kind 1 is 0.
pub fn choice_words(entry: Entry) -> [u8; 3]
    ensures { result ≡ choice_words (entry_of entry) }
{
    match entry {
        Entry::Act { position } => [KIND_ACT, position, 0],
        Entry::Inside { position, node } => [KIND_INSIDE, position, node],
    }
}
