// Why a call was not carried out.
ghost use Rattle.std.specs.Prelude.{◌≡◌};
ghost use Rattle.names.specs.Refusals.{number};

use crate::name::Name;

// What is wrong with a source: a code, and the line that it is about, 0 for the whole source.
// A code is a number, since each language has codes of its own.
#[derive(Clone, Copy, Debug, PartialEq, Eq)]
pub struct Fault {
    pub code: u8,
    pub line: u16,
}

// One case for each refusal, with what its reader needs to find the place.
#[derive(Clone, Copy, Debug, PartialEq, Eq)]
pub enum Refusal {
    // the bytes are no name
    NotAName,
    // the source has more than 512 bytes
    SourceTooLong,
    // there are more than 4 imports
    TooManyImports,
    // the unit is new, and 24 units stand
    TooManyUnits,
    // there is no unit of that name
    NoSuchUnit,
    // the interface has 12 rows
    TooManyRows,
    // an import is no unit; positions count from 1
    ImportMissing { unit: Name, position: u8 },
    // imports go in a circle
    ImportCircle { unit: Name },
    // the unit's source has a fault
    Faulty { unit: Name, fault: Fault },
    // the store has no row for a new name; the unit is told out of a build
    StoreFull { unit: Option<Name> },
    // the record is longer than the store takes; the unit is told out of a build
    RecordTooLong { unit: Option<Name> },
    // the buffer is shorter than the record
    BufferTooShort,
    // no build was accepted since the freeze
    NotBuilt,
    // the buffer is shorter than the image
    ImageTooLong,
    // a reference's entry is missing in its target; references count from 0
    EntryMissing { unit: Name, reference: u8 },
    // the bytes are no image
    NotAnImage,
    // the bytes are no artifact
    NotAnArtifact,
}

impl Refusal {
    // The refusal's number.
    pub fn number(&self) -> u8
        ensures { result ≡ number self.now }
    {
        match self {
            Refusal::NotAName => 11,
            Refusal::SourceTooLong => 12,
            Refusal::TooManyImports => 13,
            Refusal::TooManyUnits => 14,
            Refusal::NoSuchUnit => 15,
            Refusal::TooManyRows => 16,
            Refusal::ImportMissing { .. } => 21,
            Refusal::ImportCircle { .. } => 22,
            Refusal::Faulty { .. } => 31,
            Refusal::StoreFull { .. } => 41,
            Refusal::RecordTooLong { .. } => 42,
            Refusal::BufferTooShort => 43,
            Refusal::NotBuilt => 51,
            Refusal::ImageTooLong => 52,
            Refusal::EntryMissing { .. } => 53,
            Refusal::NotAnImage => 54,
            Refusal::NotAnArtifact => 55,
        }
    }
}
