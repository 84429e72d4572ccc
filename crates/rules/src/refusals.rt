// Why a call is refused, by the names of specs/Refusals.antt, and the numbers that are given back.
ghost use Rattle.std.specs.Prelude.{◌≡◌};
ghost use Rattle.rules.specs.Told.{refusal_number, stop_number, place_found};

use crate::form::Fault;

// What is wrong with what is meant. No call answers 12, `wrong_sum`, so it is none of these.
#[derive(Clone, Copy, Debug, PartialEq, Eq)]
pub enum Refusal {
    WrongLength,
    NotGood,
    WrongDimension,
    NoSuchCell,
    NoRoom,
    NotClosed,
    InUse,
    WrongPart,
    WrongDivider,
    NotBetween,
    Stale,
    ShortOutput,
    WrongChain,
    NotCarried,
    WrongOff,
    NotPlain,
    SharedFace,
}

// What stops a call that takes bytes: a fault of their form, or what they mean.
#[derive(Clone, Copy, Debug, PartialEq, Eq)]
pub enum Stop {
    Form(Fault),
    Meaning(Refusal),
}

// The number of a call that was not refused.
pub const ACCEPTED: u8 = 0;

// The place of an answer that is no fault of the form.
pub const NO_PLACE: u32 = 4_294_967_295;

impl From<Refusal> for u8 {
    ghost from_gives = { λ r n. n ≡ refusal_number r };

    fn from(r: Refusal) -> u8 {
        match r {
            Refusal::WrongLength => 1,
            Refusal::NotGood => 2,
            Refusal::WrongDimension => 4,
            Refusal::NoSuchCell => 5,
            Refusal::NoRoom => 6,
            Refusal::NotClosed => 7,
            Refusal::InUse => 8,
            Refusal::WrongPart => 9,
            Refusal::WrongDivider => 10,
            Refusal::NotBetween => 11,
            Refusal::Stale => 13,
            Refusal::ShortOutput => 15,
            Refusal::WrongChain => 16,
            Refusal::NotCarried => 17,
            Refusal::WrongOff => 18,
            Refusal::NotPlain => 19,
            Refusal::SharedFace => 20,
        }
    }
}

impl From<Stop> for u8 {
    ghost from_gives = { λ stop n. n ≡ stop_number stop };

    fn from(stop: Stop) -> u8 {
        match stop {
            Stop::Form(Fault::Ends(_)) => 3,
            Stop::Form(Fault::Wrong(_)) => 4,
            Stop::Form(Fault::Left(_)) => 14,
            Stop::Meaning(r) => u8::from(r),
        }
    }
}

impl From<Fault> for Stop {
    ghost use Rattle.rules.specs.declared.refusals.Stop.{Stop};

    ghost from_gives = { λ f stop. stop ≡ Stop.Form f };

    fn from(fault: Fault) -> Stop {
        Stop::Form(fault)
    }
}

impl From<Refusal> for Stop {
    ghost use Rattle.rules.specs.declared.refusals.Stop.{Stop};

    ghost from_gives = { λ r stop. stop ≡ Stop.Meaning r };

    fn from(refusal: Refusal) -> Stop {
        Stop::Meaning(refusal)
    }
}

impl Stop {
    // Where the form went wrong.
    pub fn place(self) -> Option<usize>
        ensures { result ≡ place_found self }
    {
        match self {
            Stop::Form(Fault::Ends(at) | Fault::Wrong(at) | Fault::Left(at)) => Some(at),
            Stop::Meaning(_) => None,
        }
    }
}
