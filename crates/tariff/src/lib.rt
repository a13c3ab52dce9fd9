// What one uncovered lot requires: the interface that the book is proved against, and two tariffs.
#![tactic(auto)]

ghost use Rattle.tariff.specs.Worked.{Worked};

mod delivered;
mod lot;
mod rule;
mod tariff;

pub use delivered::{Delivered, Tariff1996, Tariff2017};
pub use lot::{Class, Lot};
pub use tariff::Tariff;

// The worked lines of both tariffs hold of the rules: that is all it says.
pub fn worked_lines()
    ensures { Worked }
{}
