// One uncovered lot, as a tariff sees it.
ghost use Rattle.std.specs.Prelude.{◌≡◌};
ghost use Rattle.tariff.specs.Amounts.{read, times};

use measures::Measure;

#[derive(Clone, Copy, Debug, PartialEq, Eq)]
pub enum Class {
    Call,
    Put,
}

// The figures that a tariff looks at. Prices are in mils, the percentage in hundredths of a percent.
#[derive(Clone, Copy, Debug, PartialEq, Eq)]
pub struct Lot {
    pub class: Class,
    pub strike: u32,
    // the closing price of the series if there is one, else its theoretical price
    pub basis: u32,
    // the price of the underlying
    pub spot: u32,
    // the list percentage of the underlying
    pub percentage: u32,
    // the units of one lot
    pub size: u32,
}

impl Lot {
    // The same lot, with each figure outside its measure read as the nearest inside it.
    pub fn in_measure(self) -> Lot
        ensures { result ≡ read self }
    {
        Lot {
            class: self.class,
            strike: Measure::PRICE.nearest(self.strike),
            basis: Measure::THEORETICAL.nearest(self.basis),
            spot: Measure::PRICE.nearest(self.spot),
            percentage: Measure::PERCENTAGE.nearest(self.percentage),
            size: Measure::LOT_SIZE.nearest(self.size),
        }
    }

    // How many times the list percentage is added under the tariff of 2017: twice where the spot lies more than
    // five per cent above the strike of a call, or below that of a put, else three times.
    pub fn times(self) -> u64
        ensures { result ≡ times self }
    {
        let strike = u64::from(self.strike);
        let spot = u64::from(self.spot);
        let deep = match self.class {
            Class::Call => spot * 100 > strike * 105,
            Class::Put => spot * 100 < strike * 95,
        };
        if deep { 2 } else { 3 }
    }
}
