// From the bytes of a body to the fields of a record.
ghost use Rattle.records.specs.Bodies.{parsed};
ghost use Rattle.records.specs.Fields.{Splits};

use crate::fault::RecordFault;
use crate::kind::Kind;
use crate::record::Record;

// The record of a kind and a body; refused (9) where the body has not the kind's length.
pub fn split(kind: Kind, body: &[u8]) -> Result<Record, RecordFault>
    ensures { Splits (parsed kind body.now) result }
{
    match (kind, body) {
        (Kind::Clear, &[register]) => Ok(Record::Clear { register }),
        (Kind::Add, &[register, format, ref code @ ..]) if matches!(code.len(), 1..=2) => {
            Ok(Record::Add {
                register,
                format,
                code,
            })
        }
        (Kind::Dot, &[register, x_format, y_format, scale, ref pairs @ ..]) => Ok(Record::Dot {
            register,
            x_format,
            y_format,
            scale,
            pairs,
        }),
        (Kind::Join, &[register, other]) => Ok(Record::Join { register, other }),
        (Kind::Read, &[register, format, rule, mode]) => Ok(Record::Read {
            register,
            format,
            rule,
            mode,
        }),
        _ => Err(RecordFault::BodyLength),
    }
}
