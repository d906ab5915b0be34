use line_text::OutOfMemory;
use table_records::RecordsFault;
use type_a::ReadingsFault;
use type_b::ShapeFault;

/// Why a line gives no row. A place is that of the word or token that breaks a rule, counted from 1; where
/// the line ends too early, it is the place after its last byte that is neither blank nor in the comment.
#[derive(Clone, Copy, Debug, PartialEq, Eq)]
pub enum RowFault {
    /// No row goes on with this word or token, or the line ends too early.
    Syntax(usize),
    /// The word is no literal where a number must stand. In a table the number is that of the record with such a
    /// field, the header being 1.
    NotNumber(usize),
    /// The number is a literal that is no bound. In a table the number is that of the record, the header being 1.
    NumberRange(usize),
    /// A name stands before a parenthesis.
    UnknownFunction(usize),
    /// An exponent is not a single digit from 1 to 9.
    BadPower(usize),
    /// More than 64 parentheses and prefix minuses are open.
    TooDeep(usize),
    /// The formula has more than 256 nodes.
    TooManyNodes(usize),
    /// A standard or an expanded uncertainty, a half-width or a coverage factor is below 0.
    Negative,
    /// The coverage factor is 0.
    ZeroK,
    /// The share of a trapezoid's base that its top is wide is below 0 or above 1.
    Beta,
    /// The level of a normal distribution is not the word `90`, `95` or `99`.
    Level,
    /// The degrees of freedom are not `inf` and not in digits from 1 to 1,000,000, or those of a relative
    /// uncertainty that is not in digits from 1 to 70 percent.
    DofRange,
    /// The correlation coefficient is below -1 or above 1.
    RRange,
    /// The guard factor of a tolerance is below 0, above 3, or has more than three decimals.
    GuardRange,
    /// The lower limit of a tolerance is above its upper one.
    LimitOrder,
    /// There are fewer than 2 readings, or records of a table below its header.
    TooFew,
    /// There are more than 1,000 readings, or records of a table below its header.
    TooMany,
    /// This record of a table, the header being 1, is no header of 1 to 8 different plain names other than `end`, or
    /// has not as many fields as the header.
    Shape(usize),
    /// This reading, counted from 1, is the first whose magnitude is 10^9 or more, or 10^15 or more units of the
    /// finest place of all readings. In a table the number is that of the first record with such a reading, the
    /// header being 1.
    Wide(usize),
    /// There was no memory for the row.
    OutOfMemory,
}

impl From<OutOfMemory> for RowFault {
    ghost use Rattle.std.specs.Prelude.{◌≡◌};
    ghost use Rattle.sheet_rows.specs.declared.fault.RowFault.{RowFault};

    ghost from_gives = { λ _ fault. fault ≡ RowFault.OutOfMemory };

    fn from(_: OutOfMemory) -> RowFault {
        RowFault::OutOfMemory
    }
}

impl From<ShapeFault> for RowFault {
    ghost use Rattle.std.specs.Prelude.{◌≡◌};
    ghost use Rattle.sheet_rows.specs.Faults.{shape_fault};

    ghost from_gives = { λ fault row_fault. row_fault ≡ shape_fault fault };

    fn from(fault: ShapeFault) -> RowFault {
        match fault {
            ShapeFault::Negative => RowFault::Negative,
            ShapeFault::ZeroK => RowFault::ZeroK,
            ShapeFault::Beta => RowFault::Beta,
            ShapeFault::Level => RowFault::Level,
        }
    }
}

impl From<ReadingsFault> for RowFault {
    ghost use Rattle.std.specs.Prelude.{◌≡◌};
    ghost use Rattle.sheet_rows.specs.Faults.{readings_fault};

    ghost from_gives = { λ fault row_fault. row_fault ≡ readings_fault fault };

    fn from(fault: ReadingsFault) -> RowFault {
        match fault {
            ReadingsFault::TooFew => RowFault::TooFew,
            ReadingsFault::TooMany => RowFault::TooMany,
            ReadingsFault::Shape(place) => RowFault::Shape(place),
            ReadingsFault::Wide(place) => RowFault::Wide(place),
            ReadingsFault::OutOfMemory => RowFault::OutOfMemory,
        }
    }
}

impl From<RecordsFault> for RowFault {
    ghost use Rattle.std.specs.Prelude.{◌≡◌};
    ghost use Rattle.sheet_rows.specs.Faults.{records_fault};

    ghost from_gives = { λ fault row_fault. row_fault ≡ records_fault fault };

    fn from(fault: RecordsFault) -> RowFault {
        match fault {
            RecordsFault::TooFew => RowFault::TooFew,
            RecordsFault::Shape(place) => RowFault::Shape(place),
            RecordsFault::NotNumber(place) => RowFault::NotNumber(place),
            RecordsFault::NumberRange(place) => RowFault::NumberRange(place),
            RecordsFault::OutOfMemory => RowFault::OutOfMemory,
        }
    }
}
