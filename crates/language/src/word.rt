// The words of the console's language: those that name a command, and those that stand among its figures.
ghost use Rattle.std.specs.Prelude.{◌≡◌, Some, codes};
ghost use Rattle.language.specs.Text.{Parses, named, spelled, usage};

use std::error::Error;
use std::fmt;
use std::str::FromStr;

#[derive(Clone, Copy, Debug, PartialEq, Eq)]
pub enum Verb {
    Expiry,
    Lot,
    Draw,
    Award,
}

#[derive(Clone, Copy, Debug, PartialEq, Eq)]
pub enum Word {
    Shares,
    Bonds,
    Call,
    Put,
    Wheel,
    ProRata,
    Lottery,
    Rounds,
}

// The word, or its token, stands for nothing of the kind.
#[derive(Clone, Copy, Debug, PartialEq, Eq)]
pub struct UnknownWord;

impl fmt::Display for UnknownWord {
    ghost output = { λ _. Some (codes "unknown word") };

    fn fmt<W: fmt::Write>(&self, f: &mut fmt::Formatter<W>) -> fmt::Result {
        f.write_str("unknown word")
    }
}

impl Error for UnknownWord {}

// The command of that name, if there is one.
impl FromStr for Verb {
    type Err = UnknownWord;

    ghost from_str_gives = { Parses named };

    fn from_str(text: &str) -> Result<Verb, UnknownWord> {
        match text {
            "EXPIRY" => Ok(Verb::Expiry),
            "LOT" => Ok(Verb::Lot),
            "DRAW" => Ok(Verb::Draw),
            "AWARD" => Ok(Verb::Award),
            _ => Err(UnknownWord),
        }
    }
}

impl Verb {
    // How the command is written.
    pub fn usage(self) -> &'static str
        ensures { result.now ≡ usage self }
    {
        match self {
            Verb::Expiry => "usage: EXPIRY SHARES|BONDS year month holiday ..",
            Verb::Lot => "usage: LOT 2017|1996 CALL|PUT strike basis spot percentage lot",
            Verb::Draw => "usage: DRAW [ROUNDS r] WHEEL place|PRORATA|LOTTERY x",
            Verb::Award => "usage: AWARD demand claim .. (at most 16 claims)",
        }
    }
}

// The word that is spelled so, if there is one.
impl FromStr for Word {
    type Err = UnknownWord;

    ghost from_str_gives = { Parses spelled };

    fn from_str(text: &str) -> Result<Word, UnknownWord> {
        match text {
            "SHARES" => Ok(Word::Shares),
            "BONDS" => Ok(Word::Bonds),
            "CALL" => Ok(Word::Call),
            "PUT" => Ok(Word::Put),
            "WHEEL" => Ok(Word::Wheel),
            "PRORATA" => Ok(Word::ProRata),
            "LOTTERY" => Ok(Word::Lottery),
            "ROUNDS" => Ok(Word::Rounds),
            _ => Err(UnknownWord),
        }
    }
}
