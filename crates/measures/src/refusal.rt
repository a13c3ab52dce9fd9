// The causes for which a call is turned down.
ghost use Rattle.std.specs.Prelude.{◌≡◌, Some};
ghost use Rattle.measures.specs.Refusals.{number_of, told, words_of};

use std::fmt;

// Why a call was turned down, in the order in which the causes are tested: the first one met is told.
#[derive(Clone, Copy, Debug, PartialEq, Eq)]
pub enum Refusal {
    // an account, underlying, series, strategy, instruction, session, way, side or kind that there is not; the buyer is the seller
    NoSuchNumber = 1,
    // any other figure out of its measure; an expiry or a session that is not later than the present one
    FigureOutOfRange = 2,
    // a series, strategy or instruction in another state than the call needs
    WrongState = 3,
    // the series is at or past its expiry, or for expire before it
    WrongSideOfExpiry = 4,
    // new lots in a suspended series
    Suspended = 5,
    // covered lots of a put, or uncovered writing where it is not admitted
    NotAdmitted = 6,
    // legs that make no strategy of the kind
    UnfitLegs = 7,
    // fewer lots in the row than the call takes
    TooFewLots = 8,
    // a row, or a deposit, would pass what it can hold
    CeilingPassed = 9,
    // the units left would not suffice for the covered lots
    UnitsShort = 10,
    // the cash left would not suffice for the requirement
    CashShort = 11,
    // the session cannot end while an instruction stands
    InstructionStands = 12,
    // fewer than sixteen lines were lent
    TooFewLines = 13,
}

impl Refusal {
    // The number by which the refusal is known.
    pub fn number(self) -> u8
        ensures { result ≡ number_of self }
    {
        self as u8
    }

    // The refusal in a few words for people.
    pub fn words(self) -> &'static str
        ensures { result.now ≡ words_of self }
    {
        match self {
            Refusal::NoSuchNumber => "no such number",
            Refusal::FigureOutOfRange => "figure out of range",
            Refusal::WrongState => "wrong state",
            Refusal::WrongSideOfExpiry => "wrong side of expiry",
            Refusal::Suspended => "series suspended",
            Refusal::NotAdmitted => "not admitted",
            Refusal::UnfitLegs => "legs unfit",
            Refusal::TooFewLots => "too few lots",
            Refusal::CeilingPassed => "ceiling passed",
            Refusal::UnitsShort => "units short of covered lots",
            Refusal::CashShort => "cash short of requirement",
            Refusal::InstructionStands => "an instruction stands",
            Refusal::TooFewLines => "too few lines",
        }
    }
}

// As the console writes it: the number, then the words.
impl fmt::Display for Refusal {
    ghost output = { λ r. Some (told r) };

    fn fmt<W: fmt::Write>(&self, f: &mut fmt::Formatter<W>) -> fmt::Result {
        write!(f, "{} {}", self.number(), self.words())
    }
}
