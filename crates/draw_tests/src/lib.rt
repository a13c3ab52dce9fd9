// Rounds over rounds, which the console does not have. Each test is proved, and then run.
#![tactic(auto)]

#[cfg(test)]
mod tests {
    use draw::{Draw, Lottery, Rounds, Wheel};
    use std::process::Abort;

    const CLAIMS: [u32; 16] = [9, 4, 7, 2, 0, 0, 0, 0, 0, 0, 0, 0, 0, 0, 0, 0];

    // Consults a draw, whatever it is.
    fn expect<D: Draw>(rt: &impl Abort, draw: &mut D, demand: u32, first: [u32; 4]) {
        let awards = draw.award(CLAIMS, demand);
        assert_eq!(rt; &awards[..4], &first[..]);
    }

    #[test]
    fn over_the_wheel(rt: HostRuntime) {
        let mut draw = Rounds::of(5, Rounds::of(2, Wheel::at(0)));
        expect(&rt, &mut draw, 15, [5, 4, 4, 2]);
        expect(&rt, &mut draw, 6, [0, 2, 2, 2]);
    }

    #[test]
    fn over_the_lottery(rt: HostRuntime) {
        let mut draw = Rounds::of(3, Rounds::of(1, Lottery::at(7)));
        expect(&rt, &mut draw, 6, [1, 1, 2, 2]);
        expect(&rt, &mut draw, 14, [4, 4, 4, 2]);
    }
}
