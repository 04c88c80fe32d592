// Names, faults and refusals as a person reads them.
use crate::name::Name;
use crate::refusal::{Fault, Refusal};
use std::fmt;
use std::fmt::Write;

impl fmt::Display for Name {
    fn fmt<W: fmt::Write>(&self, f: &mut fmt::Formatter<W>) -> fmt::Result {
        for b in self.bytes.iter().take_while(|b| **b != 0) {
            f.write_char(char::from(*b))?;
        }
        Ok(())
    }
}

impl fmt::Display for Fault {
    fn fmt<W: fmt::Write>(&self, f: &mut fmt::Formatter<W>) -> fmt::Result {
        write!(f, "fault {} line {}", self.code, self.line)
    }
}

// What stands behind the number: the unit, where one is told.
fn show_unit<W: fmt::Write>(unit: &Option<Name>, f: &mut fmt::Formatter<W>) -> fmt::Result {
    match unit {
        Some(name) => write!(f, " unit {name}"),
        None => Ok(()),
    }
}

impl fmt::Display for Refusal {
    fn fmt<W: fmt::Write>(&self, f: &mut fmt::Formatter<W>) -> fmt::Result {
        let number = self.number();
        write!(f, "refused {number}")?;
        match self {
            Refusal::ImportMissing { unit, position } => write!(
                f,
                " unit {unit} position {position}"
            ),
            Refusal::ImportCircle { unit } => write!(f, " unit {unit}"),
            Refusal::Faulty { unit, fault } => write!(f, " unit {unit} {fault}"),
            Refusal::StoreFull { unit } => show_unit(unit, f),
            Refusal::RecordTooLong { unit } => show_unit(unit, f),
            Refusal::EntryMissing { unit, reference } => write!(
                f,
                " unit {unit} reference {reference}"
            ),
            _ => Ok(()),
        }
    }
}

impl Refusal {
    // What to mend.
    pub fn remedy(&self) -> &'static str {
        match self {
            Refusal::NotAName => "a name is a letter a-z and up to 7 more letters or digits",
            Refusal::SourceTooLong => "shorten the source to 512 bytes, or part it into two units",
            Refusal::TooManyImports => "list at most 4 imports",
            Refusal::TooManyUnits => "a project has at most 24 units: remove one first",
            Refusal::NoSuchUnit => "there is no unit of that name",
            Refusal::TooManyRows => "an interface has at most 12 rows",
            Refusal::ImportMissing { .. } =>
                "the import at that position is no unit: add the unit, or mend the name",
            Refusal::ImportCircle { .. } =>
                "imports go in a circle that this unit is in or needs: take one of them out",
            Refusal::Faulty { .. } => "mend the unit's source at that line",
            Refusal::StoreFull { .. } => "the store has no row left: open it over a larger area",
            Refusal::RecordTooLong { .. } => "the record is longer than the store takes",
            Refusal::BufferTooShort => "the buffer is shorter than the record",
            Refusal::NotBuilt => "build first: no build was accepted since the freeze",
            Refusal::ImageTooLong => "the buffer is shorter than the image",
            Refusal::EntryMissing { .. } => "the unit that the reference goes to has no such entry",
            Refusal::NotAnImage => "the bytes are no image",
            Refusal::NotAnArtifact => "the bytes are no artifact",
        }
    }
}
