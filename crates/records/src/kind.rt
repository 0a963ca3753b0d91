// The kinds of records.
ghost use Rattle.records.specs.Fields.{ByNumber};

#[derive(Clone, Copy)]
pub enum Kind {
    Clear,
    Add,
    Dot,
    Join,
    Read,
}

// A number that is no kind's.
#[derive(Clone, Copy, PartialEq, Eq)]
pub struct NoSuchKind;

// 1 clear, 2 add, 3 dot, 4 join, 5 read; no other number is a kind's.
impl TryFrom<u16> for Kind {
    type Error = NoSuchKind;

    ghost try_from_gives = { ByNumber };

    fn try_from(number: u16) -> Result<Kind, NoSuchKind> {
        match number {
            1 => Ok(Kind::Clear),
            2 => Ok(Kind::Add),
            3 => Ok(Kind::Dot),
            4 => Ok(Kind::Join),
            5 => Ok(Kind::Read),
            _ => Err(NoSuchKind),
        }
    }
}
