// The words of a command, echoed before its answer, and what they mean.
ghost use Rattle.std.specs.Prelude.{◌≡◌, ◌∷◌, map, IfOk, OnOk};
ghost use Rattle.language.specs.Text.{Appends, Meant, echoed_on, printed, words};

use crate::text::next_word;
use crate::token::Token;
use std::alloc::{AllocError, Global};

// The byte itself where it is printable ASCII, else a question mark.
fn printable(b: u8) -> u8
    ensures { result ≡ printed b }
{
    if b < 127 { b } else { b'?' }
}

// Writes the word, with a question mark for each byte that is not printable ASCII.
pub fn echo_word(word: &[u8], out: &mut String) -> Result<(), AllocError>
    ensures { OnOk result (Appends out.old out.new (map printed word.now)) }
{
    out.extend(word.iter().map(|b| char::from(printable(*b))))
}

// Writes a space, and the word after it.
fn echo_next(word: &[u8], out: &mut String) -> Result<(), AllocError>
    ensures { OnOk result (Appends out.old out.new (32 ∷ map printed word.now)) }
{
    out.push(' ')?;
    echo_word(word, out)
}

// The tokens of the words of the text, each word echoed after a space.
pub fn read_words(heap: Global, text: &[u8], out: &mut String) -> Result<Vec<Token>, AllocError>
    ensures means { IfOk result (λ v. Meant (words text.now) v.items) }
    ensures echoes { OnOk result (Appends out.old out.new (echoed_on (words text.now))) }
{
    let mut tokens = Vec::new(heap);
    let mut rest = text;
    while let Some((word, after)) = next_word(rest) {
        echo_next(word, out)?;
        tokens.push(Token::read(word))?;
        rest = after;
    }
    Ok(tokens)
}
