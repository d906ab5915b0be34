use decimal18::Dec;

/// How many outcomes a statement of conformity has.
#[derive(Clone, Copy, Debug, PartialEq, Eq)]
pub enum Form {
    /// Pass and fail (ILAC-G8:09/2019, 4.2.2).
    Binary,
    /// Pass, conditional pass, conditional fail and fail (4.2.3).
    Four,
}

/// A written rule by which conformity is decided. It has at least one limit.
#[derive(Clone, Copy, Debug, PartialEq, Eq)]
pub struct Rule {
    /// The lower limit, in the unit of the estimate.
    pub lower: Option<Dec>,
    /// The upper limit, in the same unit.
    pub upper: Option<Dec>,
    /// How many expanded uncertainties the guard band is wide, from 0 to 3.
    pub guard: Dec,
    /// The form of the statement.
    pub form: Form,
}

/// What a rule asks at each of its limits, in the order in which it asks.
#[derive(Clone, Copy, Debug, PartialEq, Eq)]
pub enum Condition {
    /// The value is inside the limit by at least the guard band.
    Guarded,
    /// It is inside the limit, or on it.
    Inside,
    /// It is inside the limit, or outside by at most the guard band.
    Near,
}

/// A statement of conformity.
#[derive(Clone, Copy, Debug, PartialEq, Eq)]
pub enum Said {
    /// The value is inside all limits by at least the guard band.
    Pass,
    /// It is inside all limits, but not by the guard band.
    ConditionalPass,
    /// It is outside a limit, and outside none by more than the guard band.
    ConditionalFail,
    /// No condition of the form holds.
    Fail,
    /// The spans do not settle the statement.
    Undecided {
        /// The first condition that they do not settle; those before it do not hold.
        first: Condition,
    },
}
