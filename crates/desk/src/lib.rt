// The desk: commands performed, and answered in text.
#![tactic(auto)]

mod answer;
mod console;
mod perform;
mod run;
mod state;

pub use run::Console;
