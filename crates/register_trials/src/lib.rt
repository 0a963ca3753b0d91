// Tests of registers on examples.
#![tactic(auto)]

#[cfg(test)]
mod tests {
    use formats::binary16::Binary16;
    use formats::fault::Fault;
    use formats::p3109::P3109;
    use registers::register::Register;
    use rounding::answers::{Mark, Saturation};
    use rounding::rules::NearestTiesToEven;
    use std::process::Abort;
    use std::test::Fail;

    // What the register reads in binary8p4 under rule 0 and mode 2.
    fn reads(
        rt: &impl Abort,
        register: &Register,
        code: u16,
        mark: Mark,
        count: u32,
    ) -> Result<(), Fail> {
        let answer = register.read(&P3109::new(8, 4)?, &NearestTiesToEven, Saturation::OvfInf);
        let ((read, side), terms) = answer;
        assert!(rt; read == code && side == mark && terms == count);
        Ok(())
    }

    #[test]
    fn nothing_is_lost(rt: HostRuntime) -> Result<(), Fail> {
        let mut register = Register::new();
        register.add(&P3109::new(8, 2)?, 0x7E)?;
        register.add(&P3109::new(8, 4)?, 0x01)?;
        register.add(&P3109::new(8, 2)?, 0xFE)?;
        reads(&rt, &register, 0x01, Mark::Exact, 3)
    }

    #[test]
    fn zero_times_infinity(rt: HostRuntime) -> Result<(), Fail> {
        let binary8p4 = P3109::new(8, 4)?;
        let mut register = Register::new();
        register.product(&binary8p4, &binary8p4, 0, 0x00, 0x7F)?;
        reads(&rt, &register, 0x80, Mark::Unordered, 1)
    }

    // A register with 2^doublings terms of a value, less one where `short` says so.
    fn grown(doublings: u32, short: bool) -> Result<Register, Fail> {
        let binary8p4 = P3109::new(8, 4)?;
        let mut register = Register::new();
        if !short {
            register.add(&binary8p4, 0x40)?;
        }
        for _ in 0..doublings {
            register.join_itself()?;
            if short {
                register.add(&binary8p4, 0x40)?;
            }
        }
        Ok(register)
    }

    #[test]
    fn a_register_counts_to_its_limit(rt: HostRuntime) -> Result<(), Fail> {
        let mut register = grown(31, false)?;
        let before = register;
        assert!(rt; register.join_itself() == Err(Fault::RegisterFull));
        assert!(rt; register.equals(&before));
        register.join(&grown(31, true)?)?;
        let ((_, _), count) = register.read(
            &P3109::new(8, 4)?,
            &NearestTiesToEven,
            Saturation::OvfInf,
        );
        assert!(rt; count == u32::MAX);
        Ok(())
    }

    // A scale and a run of binary8p4 and binary6p3 codes, and the refusal of their dot.
    const REFUSED: [(i8, &[u8], Fault); 5] = [
        (32, &[0xFF], Fault::ScaleOutOfRange),
        (-33, &[0x40, 0x40], Fault::ScaleOutOfRange),
        (0, &[0x40, 0x40, 0x40], Fault::NotWholeCodes),
        (
            31,
            &[0x40, 0x3F, 0xFF, 0x40, 0x40, 0x41],
            Fault::CodeTooLarge(3),
        ),
        (0, &[0x40, 0x80], Fault::CodeTooLarge(1)),
    ];

    #[test]
    fn a_refused_dot_brings_nothing(rt: HostRuntime) -> Result<(), Fail> {
        let x_format = P3109::new(8, 4)?;
        let y_format = P3109::new(6, 3)?;
        let mut register = Register::new();
        register.add(&x_format, 0x40)?;
        let before = register;
        for (scale, run, fault) in REFUSED.iter().copied() {
            assert!(rt; register.dot(&x_format, &y_format, scale, run) == Err(fault));
            assert!(rt; register.equals(&before));
        }
        register.dot(&x_format, &y_format, 0, &[])?;
        assert!(rt; register.equals(&before));
        Ok(())
    }

    // A dot brings what its products bring one by one, in one byte a code and in two.
    #[test]
    fn a_dot_brings_its_products(rt: HostRuntime) -> Result<(), Fail> {
        let x_format = P3109::new(8, 4)?;
        let mut whole = Register::new();
        whole.dot(
            &x_format,
            &Binary16,
            -7,
            &[0x41, 0x01, 0x3C, 0xFE, 0xFF, 0x7B],
        )?;
        let mut each = Register::new();
        each.product(&x_format, &Binary16, -7, 0x41, 0x3C01)?;
        each.product(&x_format, &Binary16, -7, 0xFE, 0x7BFF)?;
        assert!(rt; whole.equals(&each));
        each.product(&x_format, &Binary16, -7, 0x00, 0x0000)?;
        assert!(rt; !whole.equals(&each));
        Ok(())
    }
}
