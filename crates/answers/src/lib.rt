// The numbers given back: a refusal for each row of the paper's table of numbers, and 0 for what is done.
#![tactic(auto)]

ghost use Rattle.std.specs.Prelude.{◌≡◌};
ghost use Rattle.answers.specs.Answers.{number_of};

#[derive(Clone, Copy, Debug, PartialEq, Eq)]
pub enum Refusal {
    CutOff = 1,
    Kind = 2,
    BodyLength = 3,
    FieldRange = 4,
    Order = 5,
    Missing = 6,
    TooMany = 7,
    NoChannel = 8,
    ChannelEmpty = 9,
    LogFull = 10,
    Unsound = 11,
    Excluded = 12,
}

pub type Answer = Result<(), Refusal>;

// The paper's number of an answer.
pub fn number(answer: Answer) -> u8
    ensures { result ≡ number_of answer }
{
    match answer {
        Ok(()) => 0,
        Err(refusal) => refusal as u8,
    }
}
