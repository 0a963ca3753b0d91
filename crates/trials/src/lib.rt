// Tests on examples.
#![tactic(auto)]

#[cfg(test)]
mod tests {
    use formats::any::AnyFormat;
    use formats::fault::Fault;
    use formats::format::Format;
    use formats::reading::{Dyadic, Reading};
    use listing::rows::row;
    use names::from_name;
    use std::test::Fail;

    // Format byte, sign, significand, exponent, and the code; none where the format lacks the value.
    const CODES: [(u8, bool, u16, i8, Option<u16>); 11] = [
        (0x84, false, 14, 4, Some(0x7E)),
        (0x84, false, 57344, -8, Some(0x7E)),
        (0x84, false, 7, 5, Some(0x7E)),
        (0x84, true, 32768, -25, Some(0x81)),
        (0x82, false, 1, 31, Some(0x7E)),
        (0x00, true, 0, 127, Some(0)),
        (0x84, false, 17, 0, None),
        (0x84, false, 15, 4, None),
        (0x84, false, 1, -11, None),
        (0x84, false, 65535, -128, None),
        (0x00, false, 1, 16, None),
    ];

    #[test]
    fn values_have_their_codes(rt: HostRuntime) -> Result<(), Fail> {
        for (byte, negative, significand, exponent, code) in CODES {
            let value = Dyadic {
                negative,
                significand,
                exponent,
            };
            let format = AnyFormat::try_from(byte)?;
            assert_eq!(rt;
                format.encode(Reading::Finite(value)),
                code.ok_or(Fault::ValueNotRepresentable)
            );
        }
        Ok(())
    }

    #[test]
    fn names_that_no_format_has(rt: HostRuntime) {
        for name in [
            "binary9p4",
            "binary8p8",
            "Binary16",
            "binary16 ",
            "binary",
            "",
        ] {
            assert!(rt; from_name(name).is_none());
        }
    }

    // Every code of every format reads as a value whose code reads the same.
    #[test]
    fn codes_read_back(rt: HostRuntime) {
        for byte in 0..=u8::MAX {
            if let Ok(format) = AnyFormat::try_from(byte) {
                for code in 0..=u16::MAX {
                    if let Ok(reading) = format.decode(code) {
                        let back = format.encode(reading).unwrap_or(0);
                        assert_eq!(rt; format.decode(back), Ok(reading));
                        assert!(rt; byte == 0 || back == code);
                    }
                }
            }
        }
    }

    const LINES: [(u16, &str); 5] = [
        (
            0x0001,
            "0x0001 0_00000_0000000001 1 -24 0.000000059604644775390625",
        ),
        (0x7BFF, "0x7bff 0_11110_1111111111 2047 5 65504.0"),
        (0x7C01, "0x7c01 0_11111_0000000001 - - NaN"),
        (0x8000, "0x8000 1_00000_0000000000 0 -24 0.0"),
        (0xFC00, "0xfc00 1_11111_0000000000 - - -Inf"),
    ];

    #[test]
    fn lines_of_binary16(rt: HostRuntime) -> Result<(), Fail> {
        let format = AnyFormat::try_from(0)?;
        for (code, line) in LINES {
            let text = row(rt.alloc(), &format, code)?;
            assert_eq!(rt; text.as_str(), line);
        }
        Ok(())
    }
}
