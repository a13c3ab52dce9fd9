// Lines of text answered in text.
ghost use Rattle.std.specs.Prelude.{◌≡◌, ℕ, List, ◌∷◌, ◌++◌, IfOk, OnOk};
ghost use Rattle.desk.specs.Console.{Answers, Replies, Writes, after_echo};
ghost use Rattle.language.specs.Text.{Appends, Meant, echoed, words};
ghost use Rattle.language.specs.declared.token.Token.{Token as AnyToken};

use crate::answer::{Answer, Fault};
use crate::state::Desk;
use language::{Command, Token, echo_word, next_word, read_words};
use std::alloc::{AllocError, Global};

// A longer line is not taken apart.
pub const LONGEST_LINE: usize = 65_536;

impl Desk {
    // The answer to a command, or why it is none.
    fn answer(&mut self, heap: Global, verb: Token, args: &[Token]) -> Result<Answer, AllocError>
        ensures { IfOk result (λ a. Answers (verb ∷ args.now) self.old a self.new) }
    {
        let Token::Name(verb) = verb else {
            return Ok(Answer::Error(Fault::UnknownCommand));
        };
        match Command::read(heap, verb, args)? {
            Some(command) => self.perform(heap, command),
            None => Ok(Answer::Error(Fault::of(verb, args))),
        }
    }

    // Answers a command: its first word, and what follows that in the line.
    fn reply_to(
        &mut self,
        heap: Global,
        first: &[u8],
        rest: &[u8],
        out: &mut String,
    ) -> Result<Answer, AllocError>
        ensures { IfOk result (λ a. ((ts : List AnyToken) × Meant (first.now ∷ words rest.now) ts × Answers ts self.old a self.new) × Appends out.old out.new (echoed (first.now ∷ words rest.now) ++ after_echo a)) }
    {
        echo_word(first, out)?;
        let args = read_words(heap, rest, out)?;
        let answer = self.answer(heap, Token::read(first), &args)?;
        writeln!(out, ": {answer}")?;
        Ok(answer)
    }

    // Answers a line: none where it is blank or a remark.
    pub fn reply(
        &mut self,
        heap: Global,
        line: &[u8],
        out: &mut String,
    ) -> Result<Option<Answer>, AllocError>
        ensures { IfOk result (λ o. Writes out.old out.new (Replies line.now self.old o self.new)) }
    {
        let Some((first, rest)) = next_word(line) else {
            return Ok(None);
        };
        if first[0] == b'#' {
            return Ok(None);
        }
        if line.len() > LONGEST_LINE {
            let answer = Answer::Error(Fault::LineTooLong);
            writeln!(out, "..: {answer}")?;
            return Ok(Some(answer));
        }
        let answer = self.reply_to(heap, first, rest, out)?;
        Ok(Some(answer))
    }
}
