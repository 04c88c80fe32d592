// The elements of sections: bytes, pairs of bytes, numbers with a sign, names, rows and references.
ghost use Rattle.codec.specs.Format.{byte, pair, value, name, row, reference};

use crate::field::Field;
use crate::input::Input;
use crate::malformed::Malformed;
use crate::sink::Sink;
use names::Name;
use product::{Reference, Row};

impl Field for u8 {
    ghost format = { byte };

    fn read(input: &mut Input<'_>) -> Result<u8, Malformed> {
        let [b] = input.bytes::<1>()?;
        Ok(b)
    }

    fn append<S: Sink>(&self, out: &mut S) {
        out.put(&[*self]);
    }
}

impl Field for u16 {
    ghost format = { pair };

    fn read(input: &mut Input<'_>) -> Result<u16, Malformed> {
        Ok(u16::from_be_bytes(input.bytes()?))
    }

    fn append<S: Sink>(&self, out: &mut S) {
        out.put(&u16::to_be_bytes(*self));
    }
}

impl Field for i32 {
    ghost format = { value };

    fn read(input: &mut Input<'_>) -> Result<i32, Malformed> {
        Ok(i32::from_be_bytes(input.bytes()?))
    }

    fn append<S: Sink>(&self, out: &mut S) {
        out.put(&i32::to_be_bytes(*self));
    }
}

impl Field for Name {
    ghost format = { name };

    fn read(input: &mut Input<'_>) -> Result<Name, Malformed> {
        let name = Name::from_padded(input.bytes()?)?;
        Ok(name)
    }

    fn append<S: Sink>(&self, out: &mut S) {
        out.put(&self.bytes());
    }
}

impl Field for Row {
    ghost format = { row };

    fn read(input: &mut Input<'_>) -> Result<Row, Malformed> {
        let name = Name::read(input)?;
        let kind = u8::read(input)?;
        let value = i32::read(input)?;
        let line = u16::read(input)?;
        Ok(Row {
            name,
            kind,
            value,
            line,
        })
    }

    fn append<S: Sink>(&self, out: &mut S) {
        self.name.append(out);
        self.kind.append(out);
        self.value.append(out);
        self.line.append(out);
    }
}

impl Field for Reference {
    ghost format = { reference };

    fn read(input: &mut Input<'_>) -> Result<Reference, Malformed> {
        let position = u8::read(input)?;
        let entry = u8::read(input)?;
        Ok(Reference { position, entry })
    }

    fn append<S: Sink>(&self, out: &mut S) {
        self.position.append(out);
        self.entry.append(out);
    }
}
