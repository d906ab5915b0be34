use line_text::OutOfMemory;

/// Why the text of a block gives no records. A place is that of a record, counted from 1, the header included.
#[derive(Clone, Copy, Debug, PartialEq, Eq)]
pub enum RecordsFault {
    /// The text has no record, and so no header.
    TooFew,
    /// The header is not 1 to 8 different plain names other than `end`, which is said of the place 1, or the
    /// record has not as many fields as the header.
    Shape(usize),
    /// A field of the record is no literal.
    NotNumber(usize),
    /// A field of the record is a literal whose value is no bound.
    NumberRange(usize),
    /// There was no memory for the records.
    OutOfMemory,
}

impl From<OutOfMemory> for RecordsFault {
    ghost use Rattle.std.specs.Prelude.{◌≡◌};
    ghost use Rattle.table_records.specs.declared.fault.RecordsFault.{RecordsFault};

    ghost from_gives = { λ _ fault. fault ≡ RecordsFault.OutOfMemory };

    fn from(_: OutOfMemory) -> RecordsFault {
        RecordsFault::OutOfMemory
    }
}
