// The measures of the figures: the range that each kind of figure lies in, and how many there are of what goes by a number.
ghost use Rattle.std.specs.Prelude.{◌≡◌};
ghost use Rattle.measures.specs.Ranges.{account_count, cash_ceiling, inside, instruction_count, lot_size_measure, lots_measure, percentage_measure, price_measure, read_as, row_ceiling, series_count, session_measure, strategy_count, theoretical_measure, underlying_count, units_ceiling};

// A range of figures, both ends in it.
#[derive(Clone, Copy, Debug, PartialEq, Eq)]
pub struct Measure {
    pub least: u32,
    pub most: u32,
}

impl Measure {
    // Strike, spot and closing price, in mils.
    pub const PRICE: Measure = Measure {
        least: 1,
        most: 100_000_000,
    };

    // A theoretical price, in mils, and so a basis.
    pub const THEORETICAL: Measure = Measure {
        least: 0,
        most: 100_000_000,
    };

    // A list percentage, in hundredths of a percent.
    pub const PERCENTAGE: Measure = Measure {
        least: 0,
        most: 10_000,
    };

    // The units of one lot.
    pub const LOT_SIZE: Measure = Measure {
        least: 1,
        most: 1_000,
    };

    // The lots that one call moves.
    pub const LOTS: Measure = Measure {
        least: 1,
        most: 10_000,
    };

    // A business day, by its number.
    pub const SESSION: Measure = Measure {
        least: 0,
        most: 20_000,
    };

    // Whether the figure lies in the measure.
    pub fn holds(self, figure: u32) -> bool
        ensures { result ≡ inside self figure }
    {
        (self.least..=self.most).contains(&figure)
    }

    // The figure of the measure that is nearest to this one.
    pub fn nearest(self, figure: u32) -> u32
        ensures { result ≡ read_as self figure }
    {
        figure.min(self.most).max(self.least)
    }
}

// How many there are of each, numbered from 0.
pub const ACCOUNTS: usize = 16;

pub const UNDERLYINGS: usize = 8;

pub const SERIES: usize = 32;

pub const STRATEGIES: usize = 64;

pub const INSTRUCTIONS: usize = 32;

// What a side of a row, an account's cash in mils and its units of an underlying come to at most.
pub const ROW_CEILING: u32 = 10_000;

pub const CASH_CEILING: u64 = 1_000_000_000_000_000;

pub const UNITS_CEILING: u64 = 1_000_000_000;

// These ranges, counts and ceilings are those of the rules: that is all it says.
pub fn named_figures()
    ensures accounts { ACCOUNTS ≡ account_count }
    ensures underlyings { UNDERLYINGS ≡ underlying_count }
    ensures series { SERIES ≡ series_count }
    ensures strategies { STRATEGIES ≡ strategy_count }
    ensures instructions { INSTRUCTIONS ≡ instruction_count }
    ensures row { ROW_CEILING ≡ row_ceiling }
    ensures cash { CASH_CEILING ≡ cash_ceiling }
    ensures units { UNITS_CEILING ≡ units_ceiling }
    ensures price { Measure.PRICE ≡ price_measure }
    ensures theoretical { Measure.THEORETICAL ≡ theoretical_measure }
    ensures percentage { Measure.PERCENTAGE ≡ percentage_measure }
    ensures lot_size { Measure.LOT_SIZE ≡ lot_size_measure }
    ensures lots { Measure.LOTS ≡ lots_measure }
    ensures session { Measure.SESSION ≡ session_measure }
{}
