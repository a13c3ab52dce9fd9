// The console on lines that are no commands, and on an input that comes in parts. Each test is proved, and then run.
#![tactic(auto)]

#[cfg(test)]
mod tests {
    use desk::Console;
    use std::alloc::{AllocError, Global};
    use std::process::Abort;
    use std::test::Fail;

    // What the console writes for the input, and whether a line of it was no command.
    fn answered(heap: Global, input: &[u8]) -> Result<(String, bool), AllocError> {
        let mut console = Console::open(heap);
        let mut text = String::new(heap);
        console.hear(input, &mut text)?;
        let faulty = console.close(&mut text)?;
        Ok((text, faulty))
    }

    fn expect(
        rt: &impl Abort,
        heap: Global,
        input: &[u8],
        output: &str,
        faulty: bool,
    ) -> Result<(), Fail> {
        let (text, told) = answered(heap, input)?;
        assert_eq!(rt; text.as_str(), output);
        assert_eq!(rt; told, faulty);
        Ok(())
    }

    #[test]
    fn commands(rt: HostRuntime) -> Result<(), Fail> {
        let heap = rt.alloc();
        expect(&rt, heap, b"", "", false)?;
        expect(&rt, heap, b"\n \t\r\n# no command\n  #LOT\n", "", false)?;
        expect(
            &rt,
            heap,
            b"EXPIRY SHARES 2017 2",
            "EXPIRY SHARES 2017 2: ok 17\n",
            false,
        )?;
        expect(
            &rt,
            heap,
            b"\tEXPIRY  BONDS 2017 002\r\n",
            "EXPIRY BONDS 2017 002: ok 24\n",
            false,
        )?;
        expect(
            &rt,
            heap,
            b"EXPIRY SHARES 2017 0\n",
            "EXPIRY SHARES 2017 0: refused 2 figure out of range\n",
            false,
        )?;
        expect(
            &rt,
            heap,
            b"LOT 1996 PUT 100000 4000 1 1 100\n",
            "LOT 1996 PUT 100000 4000 1 1 100: ok 1000000\n",
            false,
        )
    }

    #[test]
    fn unknown(rt: HostRuntime) -> Result<(), Fail> {
        let heap = rt.alloc();
        expect(
            &rt,
            heap,
            b"expiry shares\n",
            "expiry shares: error unknown command\n",
            true,
        )?;
        expect(
            &rt,
            heap,
            b"SHARES 1\n",
            "SHARES 1: error unknown command\n",
            true,
        )?;
        expect(&rt, heap, b"2017\n", "2017: error unknown command\n", true)?;
        expect(
            &rt,
            heap,
            b"caf\xc3\xa9 \xff\x7f\n",
            "caf?? ??: error unknown command\n",
            true,
        )?;
        expect(
            &rt,
            heap,
            b"X\nEXPIRY SHARES 2017 2\n",
            "X: error unknown command\nEXPIRY SHARES 2017 2: ok 17\n",
            true,
        )
    }

    #[test]
    fn usage(rt: HostRuntime) -> Result<(), Fail> {
        let heap = rt.alloc();
        expect(
            &rt,
            heap,
            b"EXPIRY\n",
            "EXPIRY: error usage: EXPIRY SHARES|BONDS year month holiday ..\n",
            true,
        )?;
        expect(
            &rt,
            heap,
            b"EXPIRY BONDS 2017\n",
            "EXPIRY BONDS 2017: error usage: EXPIRY SHARES|BONDS year month holiday ..\n",
            true,
        )?;
        expect(
            &rt,
            heap,
            b"EXPIRY CALL 2017 2\n",
            "EXPIRY CALL 2017 2: error usage: EXPIRY SHARES|BONDS year month holiday ..\n",
            true,
        )?;
        expect(
            &rt,
            heap,
            b"EXPIRY BONDS 2017 2 x\n",
            "EXPIRY BONDS 2017 2 x: error usage: EXPIRY SHARES|BONDS year month holiday ..\n",
            true,
        )?;
        expect(
            &rt,
            heap,
            b"LOT 2018 CALL 1 1 1 1 1\n",
            "LOT 2018 CALL 1 1 1 1 1: error usage: LOT 2017|1996 CALL|PUT strike basis spot percentage lot\n",
            true,
        )?;
        expect(
            &rt,
            heap,
            b"LOT 2017 CALL 1 1 1 1 +1\n",
            "LOT 2017 CALL 1 1 1 1 +1: error usage: LOT 2017|1996 CALL|PUT strike basis spot percentage lot\n",
            true,
        )?;
        expect(
            &rt,
            heap,
            b"LOT 2017 CALL 1 1 1 1 1 1\n",
            "LOT 2017 CALL 1 1 1 1 1 1: error usage: LOT 2017|1996 CALL|PUT strike basis spot percentage lot\n",
            true,
        )
    }

    #[test]
    fn large_numbers(rt: HostRuntime) -> Result<(), Fail> {
        let heap = rt.alloc();
        expect(
            &rt,
            heap,
            b"LOT 1996 CALL 0 1 1 1 18446744073709551615\n",
            "LOT 1996 CALL 0 1 1 1 18446744073709551615: ok 2000\n",
            false,
        )?;
        expect(
            &rt,
            heap,
            b"LOT 1996 CALL 0 1 1 1 18446744073709551616\n",
            "LOT 1996 CALL 0 1 1 1 18446744073709551616: error number above 18446744073709551615\n",
            true,
        )?;
        expect(
            &rt,
            heap,
            b"EXPIRY BONDS 2017 4294967298\n",
            "EXPIRY BONDS 2017 4294967298: refused 2 figure out of range\n",
            false,
        )
    }

    // A line that is no command, or no draw, leaves the draw where it is.
    #[test]
    fn draws(rt: HostRuntime) -> Result<(), Fail> {
        let heap = rt.alloc();
        expect(
            &rt,
            heap,
            b"DRAW\nDRAW WHEEL\nDRAW PRORATA 1\n",
            "DRAW: error usage: DRAW [ROUNDS r] WHEEL place|PRORATA|LOTTERY x\nDRAW WHEEL: error usage: DRAW [ROUNDS r] WHEEL place|PRORATA|LOTTERY x\nDRAW PRORATA 1: error usage: DRAW [ROUNDS r] WHEEL place|PRORATA|LOTTERY x\n",
            true,
        )?;
        expect(
            &rt,
            heap,
            b"DRAW ROUNDS 2\nDRAW ROUNDS WHEEL 2\nDRAW ROUNDS 2 ROUNDS 2 PRORATA\n",
            "DRAW ROUNDS 2: error usage: DRAW [ROUNDS r] WHEEL place|PRORATA|LOTTERY x\nDRAW ROUNDS WHEEL 2: error usage: DRAW [ROUNDS r] WHEEL place|PRORATA|LOTTERY x\nDRAW ROUNDS 2 ROUNDS 2 PRORATA: error usage: DRAW [ROUNDS r] WHEEL place|PRORATA|LOTTERY x\n",
            true,
        )?;
        expect(
            &rt,
            heap,
            b"AWARD\nAWARD 1 x\nAWARD 1 2 2 2 2 2 2 2 2 2 2 2 2 2 2 2 2 2\n",
            "AWARD: error usage: AWARD demand claim .. (at most 16 claims)\nAWARD 1 x: error usage: AWARD demand claim .. (at most 16 claims)\nAWARD 1 2 2 2 2 2 2 2 2 2 2 2 2 2 2 2 2 2: error usage: AWARD demand claim .. (at most 16 claims)\n",
            true,
        )?;
        expect(
            &rt,
            heap,
            b"AWARD 1 2 2\nAWARD 1 x\nEXPIRY SHARES 2017 0\nDRAW LOTTERY\nAWARD 1 2 2\n",
            "AWARD 1 2 2: ok 1 0 0 0 0 0 0 0 0 0 0 0 0 0 0 0\nAWARD 1 x: error usage: AWARD demand claim .. (at most 16 claims)\nEXPIRY SHARES 2017 0: refused 2 figure out of range\nDRAW LOTTERY: error usage: DRAW [ROUNDS r] WHEEL place|PRORATA|LOTTERY x\nAWARD 1 2 2: ok 0 1 0 0 0 0 0 0 0 0 0 0 0 0 0 0\n",
            true,
        )
    }

    // A command with blanks after it, so that the line has so many bytes.
    fn padded(heap: Global, bytes: usize) -> Result<Vec<u8>, AllocError> {
        let mut line = b"EXPIRY SHARES 2017 2".to_vec(heap)?;
        line.resize(bytes, b' ')?;
        Ok(line)
    }

    #[test]
    fn long_lines(rt: HostRuntime) -> Result<(), Fail> {
        let heap = rt.alloc();
        expect(
            &rt,
            heap,
            &padded(heap, 65_536)?,
            "EXPIRY SHARES 2017 2: ok 17\n",
            false,
        )?;
        expect(
            &rt,
            heap,
            &padded(heap, 65_537)?,
            "..: error line longer than 65536 bytes\n",
            true,
        )?;
        expect(
            &rt,
            heap,
            &padded(heap, 1_000_000)?,
            "..: error line longer than 65536 bytes\n",
            true,
        )
    }

    #[test]
    fn parts(rt: HostRuntime) -> Result<(), Fail> {
        let heap = rt.alloc();
        let mut console = Console::open(heap);
        let mut text = String::new(heap);
        console.hear(b"EXPIRY SHA", &mut text)?;
        assert_eq!(rt; text.as_str(), "");
        console.hear(b"RES 2017 2\nX", &mut text)?;
        assert_eq!(rt; text.as_str(), "EXPIRY SHARES 2017 2: ok 17\n");
        assert!(rt; console.close(&mut text)?);
        assert_eq!(rt;
            text.as_str(),
            "EXPIRY SHARES 2017 2: ok 17\nX: error unknown command\n"
        );
        Ok(())
    }
}
