// Draws: how an exercise falls on the writers of its series.
#![tactic(auto)]

ghost use Rattle.draw.specs.Worked.{Worked};

mod choice;
mod draw;
mod exercise;
mod lottery;
mod pro_rata;
mod rounds;
mod wheel;

pub use choice::{Choice, Plain};
pub use draw::Draw;
pub use exercise::Exercise;
pub use lottery::{Lottery, tickets_shared_out};
pub use pro_rata::{ProRata, pro_rata_spreads};
pub use rounds::Rounds;
pub use wheel::{Wheel, wheel_goes_round};

// The worked lines of the draws hold of the rules: that is all it says.
pub fn worked_lines()
    ensures { Worked }
{}
