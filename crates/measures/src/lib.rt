// What every part of the option book agrees on: the refusals with their numbers, and the measures of the figures.
#![tactic(auto)]

mod measure;
mod refusal;

pub use measure::{
    ACCOUNTS, CASH_CEILING, INSTRUCTIONS, Measure, ROW_CEILING, SERIES, STRATEGIES, UNDERLYINGS,
    UNITS_CEILING, named_figures,
};
pub use refusal::Refusal;
