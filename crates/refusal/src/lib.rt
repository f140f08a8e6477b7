// Why a call is refused: the refusals of documents 01 and 02, each with its number.
#![tactic(auto)]

ghost use Rattle.std.specs.Prelude.{◌≡◌};
ghost use Rattle.refusal.specs.Refusal.{number_of};

// A refusal, and its number.
#[derive(Clone, Copy, Debug, PartialEq, Eq)]
pub enum Refusal {
    FileSize = 1,
    Reporters = 2,
    Currencies = 3,
    Ledger = 4,
    Head = 5,
    Moment = 6,
    Receiver = 7,
    Body = 8,
    Tail = 9,
    ControlWord = 10,
    RecordCount = 11,
    ShortBuffer = 12,
    Sender = 13,
    Record = 14,
    Answers = 15,
    Texts = 16,
    MissingText = 17,
    ErrorFileMoment = 18,
    ErrorFileRoom = 19,
    EarlierAnswer = 29,
}

impl From<Refusal> for u8 {
    ghost from_gives = { λ refusal number. number ≡ number_of refusal };

    fn from(refusal: Refusal) -> u8 {
        refusal as u8
    }
}

impl From<Refusal> for u64 {
    ghost from_gives = { λ refusal number. number ≡ number_of refusal };

    fn from(refusal: Refusal) -> u64 {
        refusal as u64
    }
}
