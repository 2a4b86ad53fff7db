// The numbers for a no. Every public call that can refuse answers with one of these and a place.
//
// A rule for every answer of this project that is an enum: a definition in specs/ gives document 01's number and values for each
// case, as a `Said`, and promises are written with that definition. Here it is `number_of`.
#![tactic(auto)]

ghost use Rattle.std.specs.Prelude.{◌≡◌};
ghost use Rattle.refusal.specs.Numbers.{number_of};

// Each case has the number that stands for it wherever a refusal is printed or returned.
#[derive(Clone, Copy, Debug, PartialEq, Eq)]
pub enum Refusal {
    Room = 1,
    Cut = 2,
    Kind = 3,
    Place = 4,
    Field = 5,
    Order = 6,
    Twin = 7,
    Full = 8,
    Count = 9,
    Tail = 10,
    Table = 11,
    NoPrefix = 12,
}

// A refusal with its place: the error of every call that can refuse.
#[derive(Clone, Copy, Debug, PartialEq, Eq)]
pub struct Refused {
    pub refusal: Refusal,
    pub place: usize,
}

// The number that stands for a refusal wherever one is printed or returned.
pub fn number(refusal: Refusal) -> u32
    ensures { result ≡ number_of refusal }
{
    refusal as u32
}
