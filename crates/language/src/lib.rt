// The console's language: a line of text taken apart into words, and the command that they write.
#![tactic(auto)]

mod args;
mod command;
mod draws;
mod echo;
mod questions;
mod text;
mod token;
mod word;

pub use args::Market;
pub use command::Command;
pub use draws::{AwardArgs, DrawArgs, Drawing};
pub use echo::{echo_word, read_words};
pub use questions::{ExpiryArgs, LotArgs};
pub use text::next_word;
pub use token::Token;
pub use word::{UnknownWord, Verb};
