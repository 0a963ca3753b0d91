// A record of a sheet, by its fields as they stand.

// The code bytes of an add and the pairs of a dot stay in the sheet.
#[derive(Clone, Copy)]
pub enum Record<'a> {
    Clear {
        register: u8,
    },
    Add {
        register: u8,
        format: u8,
        code: &'a [u8],
    },
    Dot {
        register: u8,
        x_format: u8,
        y_format: u8,
        scale: u8,
        pairs: &'a [u8],
    },
    Join {
        register: u8,
        other: u8,
    },
    Read {
        register: u8,
        format: u8,
        rule: u8,
        mode: u8,
    },
}
