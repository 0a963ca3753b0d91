// The fields of a record, each at its offset from the record's first byte.
ghost use Rattle.std.specs.Prelude.{◌≡◌};
ghost use Rattle.formats.specs.AnyFormat.{meaning_of};
ghost use Rattle.records.specs.Fields.{RegisterAt, FormatAt, NumberedAt, RulesAt, ModesAt, OneCode};

use crate::fault::RecordFault;
use formats::any::AnyFormat;
use formats::fault::Fault;
use formats::format::Format;

// One of the registers 0 to 3; refused (10) at any other number. The number is an index, and has no
// type of its own for numbered_at.
pub fn register_at(offset: usize, byte: u8) -> Result<usize, RecordFault>
    ensures { RegisterAt offset byte result }
{
    if byte < 4 {
        Ok(usize::from(byte))
    } else {
        Err(RecordFault::NoSuchNumber(offset))
    }
}

// The format of a format byte; refused (1) where there is none.
pub fn format_at(offset: usize, byte: u8) -> Result<AnyFormat, RecordFault>
    ensures { FormatAt offset byte result }
{
    AnyFormat::try_from(byte).map_err(|fault| RecordFault::Arithmetic(offset, fault))
}

// The rule or the mode of its byte; refused (10) where there is none.
pub fn numbered_at<T: TryFrom<u8>>(offset: usize, byte: u8) -> Result<T, RecordFault>
where
    T::Error: Drop,
    ensures numbered { NumberedAt T.try_from_gives offset byte result }
    ensures rules { RulesAt }
    ensures modes { ModesAt }
{
    T::try_from(byte).map_err(|_| RecordFault::NoSuchNumber(offset))
}

// The one code that the bytes are; refused (6) where they are not one code of the format.
pub fn one_code(offset: usize, format: &AnyFormat, bytes: &[u8]) -> Result<u16, RecordFault>
    ensures { OneCode offset (meaning_of format.now) bytes.now result }
{
    match (format.shape().width > 8, bytes) {
        (false, [code]) => Ok(u16::from(*code)),
        (true, [low, high]) => Ok(u16::from_le_bytes([*low, *high])),
        _ => Err(RecordFault::Arithmetic(offset, Fault::NotWholeCodes)),
    }
}
