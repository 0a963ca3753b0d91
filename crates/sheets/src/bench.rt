// The bench: four registers, on which records are performed.
ghost use Rattle.std.specs.Prelude.{ℕ, ◌≤◌, []};
ghost use Rattle.formats.specs.AnyFormat.{meaning_of};
ghost use Rattle.records.specs.Bodies.{clear_fields, add_fields, dot_fields, join_fields, read_fields};
ghost use Rattle.records.specs.Fields.{fields_of};
ghost use Rattle.registers.specs.Calls.{Answers};
ghost use Rattle.registers.specs.Runs.{dot_offer};
ghost use Rattle.sheets.specs.Steps.{Keeps, Performs, Placed};

use crate::line::Line;
use formats::any::AnyFormat;
use formats::fault::Fault;
use records::fault::RecordFault;
use records::fields::{format_at, numbered_at, one_code, register_at};
use records::record::Record;
use registers::register::Register;
use rounding::answers::Saturation;
use rounding::rules::AnyRule;

#[derive(Clone, Copy)]
pub struct Bench {
    // Four, by the format of a sheet.
    registers: [Register; 4],
}

impl Bench {
    pub(crate) fn new() -> Bench
        ensures { Keeps result (λ i. []) }
    {
        Bench {
            registers: [Register::new(); 4],
        }
    }

    // Performs the n-th record of a sheet: its fields are checked as they stand. They are the variants'
    // own, and a struct for each kind's fields would only name them once more.
    pub(crate) fn perform(
        &mut self,
        number: u32,
        record: &Record,
    ) -> Result<Option<Line>, RecordFault>
        ensures { Performs number (fields_of «record».now) self.old result self.new }
    {
        match *record {
            Record::Clear { register } => self.clear(register),
            Record::Add {
                register,
                format,
                code,
            } => self.add(register, format, code),
            Record::Dot {
                register,
                x_format,
                y_format,
                scale,
                pairs,
            } => self.dot(register, x_format, y_format, scale, pairs),
            Record::Join { register, other } => self.join(register, other),
            Record::Read {
                register,
                format,
                rule,
                mode,
            } => self.read(number, register, format, rule, mode),
        }
    }

    fn clear(&mut self, register: u8) -> Result<Option<Line>, RecordFault>
        ensures { (n : ℕ) → Performs n (clear_fields register) self.old result self.new }
    {
        let register = register_at(4, register)?;
        self.registers[register].clear();
        Ok(None)
    }

    fn add(&mut self, register: u8, format: u8, code: &[u8]) -> Result<Option<Line>, RecordFault>
        ensures { (n : ℕ) → Performs n (add_fields register format code.now) self.old result self.new }
    {
        let register = register_at(4, register)?;
        let format = format_at(5, format)?;
        let code = one_code(6, &format, code)?;
        placed(6, self.registers[register].add(&format, code))
    }

    fn dot(
        &mut self,
        register: u8,
        x_format: u8,
        y_format: u8,
        scale: u8,
        pairs: &[u8],
    ) -> Result<Option<Line>, RecordFault>
        ensures { (n : ℕ) → Performs n (dot_fields register x_format y_format scale pairs.now) self.old result self.new }
    {
        let register = register_at(4, register)?;
        let x_format = format_at(5, x_format)?;
        let y_format = format_at(6, y_format)?;
        let register = &mut self.registers[register];
        let scale = scale.cast_signed();
        placed(8, dot(register, x_format, y_format, scale, pairs))
    }

    fn join(&mut self, register: u8, other: u8) -> Result<Option<Line>, RecordFault>
        ensures { (n : ℕ) → Performs n (join_fields register other) self.old result self.new }
    {
        let register = register_at(4, register)?;
        let other = self.registers[register_at(5, other)?];
        placed(0, self.registers[register].join(&other))
    }

    fn read(
        &mut self,
        number: u32,
        register: u8,
        format: u8,
        rule: u8,
        mode: u8,
    ) -> Result<Option<Line>, RecordFault>
        ensures { Performs number (read_fields register format rule mode) self.old result self.new }
    {
        let index = register_at(4, register)?;
        let format = format_at(5, format)?;
        let rule: AnyRule = numbered_at(6, rule)?;
        let mode: Saturation = numbered_at(7, mode)?;
        let ((code, mark), count) = self.registers[index].read(&format, &rule, mode);
        Ok(Some(Line {
            record: number,
            register,
            code,
            count,
            mark,
        }))
    }
}

// A call's answer, with its refusal at its offset in the record: the codes begin at `codes`, the
// scale stands before them, and a full register is the whole record's fault.
fn placed(codes: usize, answer: Result<(), Fault>) -> Result<Option<Line>, RecordFault>
    requires { codes ≤ 8 }
    ensures { Placed codes answer result }
{
    answer.map(|()| None).map_err(|fault| {
        let offset = match fault {
            Fault::ScaleOutOfRange => 7,
            Fault::RegisterFull => 0,
            _ => codes,
        };
        RecordFault::Arithmetic(offset, fault)
    })
}

// The products of a run. The formats are told apart before the loop over the pairs, and not in it.
fn dot(
    register: &mut Register,
    x_format: AnyFormat,
    y_format: AnyFormat,
    scale: i8,
    pairs: &[u8],
) -> Result<(), Fault>
    ensures { Answers (dot_offer (meaning_of x_format) (meaning_of y_format) scale pairs.now) register.old result register.new }
{
    match (&x_format, &y_format) {
        (AnyFormat::OfP3109(x), AnyFormat::OfP3109(y)) => register.dot(x, y, scale, pairs),
        (AnyFormat::OfP3109(x), AnyFormat::OfBinary16(y)) => register.dot(x, y, scale, pairs),
        (AnyFormat::OfBinary16(x), AnyFormat::OfP3109(y)) => register.dot(x, y, scale, pairs),
        (AnyFormat::OfBinary16(x), AnyFormat::OfBinary16(y)) => register.dot(x, y, scale, pairs),
    }
}
