// A run of the console over an input that comes in parts.
ghost use Rattle.std.specs.Prelude.{◌≡◌, ◌↔◌, ℕ, List, [], ◌∷◌, ◌++◌, IfOk, IsTrue, Option as AnyOption, OnOk};
ghost use Rattle.desk.specs.Console.{Replies, Writes};
ghost use Rattle.desk.specs.Run.{Heard, Hears, Kept, Ran, after_line, is_error, nothing_heard, with_byte};
ghost use Rattle.desk.specs.declared.answer.Answer.{Answer as AnyAnswer};

use crate::answer::Answer;
use crate::console::LONGEST_LINE;
use crate::state::Desk;
use std::alloc::{AllocError, Global};
use std::marker::Model;

// The line that is not at its end yet, whether an error was told, and the desk behind it.
#[derive(Debug, Drop)]
pub struct Console {
    heap: Global,
    line: Vec<u8>,
    faulty: bool,
    desk: Desk,
}

// Whether the byte ends a line.
fn is_end(b: u8) -> bool
    ensures { IsTrue result ↔ (b ≡ 10) }
{
    b == b'\n'
}

// Whether the answer to a line, if there is one, tells an error.
fn tells_error(answer: Option<Answer>) -> bool
    ensures { result ≡ is_error answer }
{
    matches!(answer, Some(Answer::Error(_)))
}

// What it keeps, whatever it allocates on.
impl Model for Console {
    ghost Value = { Kept };

    ghost view = { λ c. record { line = c.line.items; bad = c.faulty; desk = c.desk } };
}

impl Console {
    // A console that has heard nothing yet.
    pub fn open(heap: Global) -> Console
        ensures { result ≡ nothing_heard }
    {
        Console {
            heap,
            line: Vec::new(heap),
            faulty: false,
            desk: Desk::new(),
        }
    }

    // One byte more of the line.
    fn keep(&mut self, b: u8) -> Result<(), AllocError>
        ensures { OnOk result (self.new ≡ with_byte self.old b) }
    {
        if self.line.len() <= LONGEST_LINE {
            self.line.push(b)?;
        }
        Ok(())
    }

    // Answers the line, and tells whether an error was told so far.
    fn end_line(&mut self, out: &mut String) -> Result<bool, AllocError>
        ensures { IfOk result (λ bad. (o : AnyOption AnyAnswer) × Writes out.old out.new (Replies self.old.line self.old.desk o self.new.desk) × (self.new ≡ after_line self.old o self.new.desk) × (bad ≡ self.new.bad)) }
    {
        let answer = self.desk.reply(self.heap, &self.line, out)?;
        self.line.clear();
        self.faulty |= tells_error(answer);
        Ok(self.faulty)
    }

    // Hears the next byte of the input, and answers the line where it ends it.
    fn hear_byte(&mut self, b: u8, out: &mut String) -> Result<(), AllocError>
        ensures { OnOk result (Writes out.old out.new (Hears self.old (b ∷ []) self.new)) }
    {
        if is_end(b) {
            self.end_line(out)?;
            Ok(())
        } else {
            self.keep(b)
        }
    }

    // Hears the next bytes of the input, and answers each line that they end.
    pub fn hear(&mut self, bytes: &[u8], out: &mut String) -> Result<(), AllocError>
        ensures { OnOk result (Writes out.old out.new (Hears self.old bytes.now self.new)) }
    {
        for b in bytes {
            self.hear_byte(*b, out)?;
        }
        Ok(())
    }

    // Ends the run: answers a last line that has no end, and tells whether an error was told.
    pub fn close(mut self, out: &mut String) -> Result<bool, AllocError>
        ensures { IfOk result (λ bad. Writes out.old out.new (λ text. (input before : List ℕ) → Heard input self before → Ran input (before ++ text) bad)) }
    {
        self.end_line(out)
    }
}
