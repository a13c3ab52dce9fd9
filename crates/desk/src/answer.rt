// What the console answers to a command, and the text of it.
ghost use Rattle.std.specs.Prelude.{◌≡◌, Some};
ghost use Rattle.desk.specs.Answers.{answer_text, fault_of, fault_text, figures_text};
ghost use Rattle.desk.specs.Console.{Says};

use language::{Token, Verb};
use measures::Refusal;
use std::fmt;

// Why a line is no command.
#[derive(Clone, Copy, Debug, PartialEq, Eq)]
pub enum Fault {
    UnknownCommand,
    // the command is written otherwise
    Usage(Verb),
    NumberTooLarge,
    LineTooLong,
}

#[derive(Clone, Copy, Debug, PartialEq, Eq)]
pub enum Answer {
    // done, with nothing to tell
    Done,
    Value(u64),
    Awards([u32; 16]),
    Refused(Refusal),
    Error(Fault),
}

impl Fault {
    // Why the tokens that follow the verb do not write its command.
    pub fn of(verb: Verb, args: &[Token]) -> Fault
        ensures { result ≡ fault_of verb args.now }
    {
        if args.contains(&Token::TooLarge) {
            Fault::NumberTooLarge
        } else {
            Fault::Usage(verb)
        }
    }
}

impl fmt::Display for Fault {
    ghost output = { λ fault. Some (fault_text fault) };

    fn fmt<W: fmt::Write>(&self, f: &mut fmt::Formatter<W>) -> fmt::Result {
        f.write_str(match self {
            Fault::UnknownCommand => "unknown command",
            Fault::Usage(verb) => verb.usage(),
            Fault::NumberTooLarge => "number above 18446744073709551615",
            Fault::LineTooLong => "line longer than 65536 bytes",
        })
    }
}

// The figures, each after a space.
#[derive(Clone, Copy)]
struct Figures<'a>(&'a [u32]);

impl fmt::Display for Figures<'_> {
    ghost output = { λ figures. Some (figures_text figures.0.now) };

    fn fmt<W: fmt::Write>(&self, f: &mut fmt::Formatter<W>) -> fmt::Result {
        for figure in self.0 {
            write!(f, " {figure}")?;
        }
        Ok(())
    }
}

impl fmt::Display for Answer {
    ghost output = { λ answer. Some (answer_text answer) };

    fn fmt<W: fmt::Write>(&self, f: &mut fmt::Formatter<W>) -> fmt::Result {
        match self {
            Answer::Done => f.write_str("ok"),
            Answer::Value(n) => write!(f, "ok {n}"),
            Answer::Awards(awards) => write!(f, "ok{}", Figures(awards)),
            Answer::Refused(refusal) => write!(f, "refused {refusal}"),
            Answer::Error(fault) => write!(f, "error {fault}"),
        }
    }
}

// The day, or the refusal.
impl From<Result<u32, Refusal>> for Answer {
    ghost from_gives = { Says };

    fn from(day: Result<u32, Refusal>) -> Answer {
        match day {
            Ok(day) => Answer::Value(u64::from(day)),
            Err(refusal) => Answer::Refused(refusal),
        }
    }
}
