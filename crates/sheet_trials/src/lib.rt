// Tests of sheets on examples.
#![tactic(auto)]

#[cfg(test)]
mod tests {
    use reports::text::printed;
    use std::process::Abort;
    use std::test::Fail;

    fn prints(rt: &(impl Abort + AllocGlobal), sheet: &[u8], expected: &str) -> Result<(), Fail> {
        let text = printed(rt.alloc(), sheet)?;
        assert!(rt; text.as_slice() == expected.as_bytes());
        Ok(())
    }

    const SHEETS: [(&[u8], &str); 19] = [
        (&[], ""),
        // An unknown format, first of an add and then of a dot.
        (&[5, 0, 2, 0, 0, 0x91, 0x40], "fault 1 arithmetic 5\n"),
        (&[6, 0, 3, 0, 0, 0x84, 0x22, 0], "fault 1 arithmetic 6\n"),
        // A code that is too large: the second pair's second code, in a second record.
        (
            &[
                3, 0, 1, 0, 3, 10, 0, 3, 0, 0, 0x84, 0x63, 0, 0xFF, 0x3F, 0x00, 0x40,
            ],
            "fault 2 arithmetic 16\n",
        ),
        (&[5, 0, 2, 0, 0, 0x63, 0x40], "fault 2 arithmetic 6\n"),
        // A scale of 32 and one of -33, before bytes that are not whole pairs.
        (
            &[7, 0, 3, 0, 0, 0x84, 0x84, 0x20, 0x40],
            "fault 4 arithmetic 7\n",
        ),
        (
            &[7, 0, 3, 0, 0, 0x84, 0x84, 0xDF, 0x40],
            "fault 4 arithmetic 7\n",
        ),
        // Two code bytes for one of 8 bits, one for one of 16, and half a pair.
        (&[6, 0, 2, 0, 0, 0x63, 0xFF, 0], "fault 6 arithmetic 6\n"),
        (&[5, 0, 2, 0, 0, 0, 0xFF], "fault 6 arithmetic 6\n"),
        (
            &[7, 0, 3, 0, 0, 0x63, 0x63, 0xE0, 0xFF],
            "fault 6 arithmetic 8\n",
        ),
        // Three bytes left, a length under 2, and one past the end.
        (&[3, 0, 1, 0, 2, 9, 0, 9], "fault 7 sheet 5\n"),
        (&[1, 0, 9, 0], "fault 7 sheet 0\n"),
        (&[4, 0, 1, 0, 4], "fault 7 sheet 0\n"),
        // Kinds that there are not, by either byte.
        (&[2, 0, 0, 0], "fault 8 sheet 2\n"),
        (&[3, 0, 1, 1, 0], "fault 8 sheet 2\n"),
        // A body of another length, before a register that there is not.
        (&[4, 0, 1, 0, 9, 9], "fault 9 record 0\n"),
        // A register, another register, a rule and a mode that there are not, as they stand.
        (&[4, 0, 4, 0, 4, 4], "fault 10 record 4\n"),
        (&[4, 0, 4, 0, 3, 4], "fault 10 record 5\n"),
        (&[6, 0, 5, 0, 0, 0x84, 5, 3], "fault 10 record 6\n"),
    ];

    #[test]
    fn each_refusal_has_its_line(rt: HostRuntime) -> Result<(), Fail> {
        for (sheet, expected) in SHEETS.iter() {
            prints(&rt, sheet, expected)?;
        }
        Ok(())
    }

    // One term is joined to itself until the register is full, and the sheet ends there.
    #[test]
    fn a_full_register_ends_the_sheet(rt: HostRuntime) -> Result<(), Fail> {
        let mut sheet = Vec::from_slice(rt.alloc(), &[5, 0, 2, 0, 1, 0x84, 0xC0])?;
        for _ in 0..33 {
            sheet.extend_from_slice(&[4, 0, 4, 0, 1, 1])?;
        }
        sheet.extend_from_slice(&[6, 0, 5, 0, 1, 0x84, 0, 0])?;
        prints(&rt, sheet.as_slice(), "fault 5 arithmetic 193\n")
    }

    // A dot of 32,760 products and a reading fill a sheet; one byte more and nothing is run.
    #[test]
    fn the_longest_sheet(rt: HostRuntime) -> Result<(), Fail> {
        let mut sheet = Vec::from_slice(rt.alloc(), &[0xF6, 0xFF, 3, 0, 2, 0x84, 0x84, 0])?;
        for _ in 0..32_760 {
            sheet.extend_from_slice(&[0x40, 0x08])?;
        }
        sheet.extend_from_slice(&[6, 0, 5, 0, 2, 0x83, 4, 1])?;
        assert!(rt; sheet.len() == 65_536);
        prints(&rt, sheet.as_slice(), "2 2 005f 32760 low\n")?;
        sheet.push(0)?;
        prints(&rt, sheet.as_slice(), "fault 11 sheet 65536\n")
    }
}
