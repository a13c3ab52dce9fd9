// A line taken apart into words.
ghost use Rattle.std.specs.Prelude.{◌≡◌, ◌<◌, [], ◌∷◌, length, not, position, MatchOption};
ghost use Rattle.std.specs.List.{before_first};
ghost use Rattle.language.specs.Text.{blank, words};

// Bytes up to the space part words: spaces, tabs, and whatever else does not print.
fn is_blank(b: u8) -> bool
    ensures { result ≡ blank b }
{
    b <= b' '
}

// Where the first word begins, if there is a word.
fn word_start(text: &[u8]) -> Option<usize>
    ensures { result ≡ position (λ b. not (blank b)) text.now }
{
    text.iter().position(|b| !is_blank(*b))
}

// How long the word is that the text begins with.
fn word_len(text: &[u8]) -> usize
    ensures { result ≡ length (before_first blank text.now) }
{
    text.iter().take_while(|b| !is_blank(**b)).count()
}

// The first word of the text and what follows it, if there is a word.
#[tactic(auto, using(crate::proofs::Words::no_word, crate::proofs::Words::first_word))]
pub fn next_word(text: &[u8]) -> Option<(&[u8], &[u8])>
    ensures { MatchOption result (words text.now ≡ []) (λ p. (words text.now ≡ p.0.now ∷ words p.1.now) × (0 < length p.0.now) × (length p.1.now < length text.now)) }
{
    let start = word_start(text)?;
    let (_, rest) = text.split_at(start);
    Some(rest.split_at(word_len(rest)))
}
