ghost use Rattle.std.specs.Prelude.{◌≡◌, true, IfOk, IfErr};
ghost use Rattle.sheet_rows.specs.Sheets.{has_quantity};
ghost use Rattle.edit_session.specs.Replies.{and_then, gradient_in, value_in};
ghost use Rattle.edit_session.specs.Asking.{AreGroupsIn, Finds, HasNumber, IsAsked, IsGradientIn, IsOfOne, IsOfTwo, IsStillAsked, IsStopOf, StopsAt, StopsOne, StopsTwo};

use crate::stop::Stop;
use adjoint_pass::{GradFault, gradient};
use covariance::{Gradient, GroupList};
use fixed_interval::{Span, Steps};
use formula_ast::Name;
use line_text::OutOfMemory;
use sheet_edits::Sheet;
use sheet_model::Numbered;
use std::alloc::Global;
use std::sync::ledger::Ledger;
use value_cache::Evaluation;

/// A sheet that is asked, with its quantities by numbers.
#[derive(Drop)]
pub(crate) struct Asked<'a> {
    pub(crate) alloc: Global,
    pub(crate) sheet: &'a Sheet,
    pub(crate) numbered: Numbered,
}

/// What the law of propagation of uncertainty needs of one quantity.
#[derive(Drop)]
pub(crate) struct OfOne {
    /// The interval of its value.
    pub(crate) value: Span,
    /// Its sensitivities.
    pub(crate) gradient: Gradient,
    /// The groups of the inputs of the sheet.
    pub(crate) groups: GroupList,
}

/// What it needs of two quantities.
#[derive(Drop)]
pub(crate) struct OfTwo {
    /// The sensitivities of the first.
    pub(crate) first: Gradient,
    /// Those of the second.
    pub(crate) second: Gradient,
    /// The groups of the inputs of the sheet.
    pub(crate) groups: GroupList,
}

impl<'a> Asked<'a> {
    /// The sheet, nothing of which is found yet.
    ///
    /// # Errors
    ///
    /// [`OutOfMemory`] where there is no memory for its quantities.
    pub(crate) fn new(alloc: Global, sheet: &'a Sheet) -> Result<Asked<'a>, OutOfMemory>
        ensures sheet { IfOk result (λ asked. asked.sheet.now ≡ sheet.now) }
        ensures asked { IfOk result IsAsked }
    {
        let numbered = Numbered::new(alloc, sheet.rows())?;
        Ok(Asked {
            alloc,
            sheet,
            numbered,
        })
    }

    /// The interval of the value of a quantity.
    ///
    /// # Errors
    ///
    /// [`Stop::Value`] exactly where it has none, or out of memory.
    pub(crate) fn value<L: Ledger>(&mut self, y: &Name, steps: &mut Steps<L>) -> Result<Span, Stop>
        requires asked { IsAsked self.old }
        requires there { has_quantity self.old.sheet.now y.now ≡ true }
        ensures asked { IsStillAsked self.old self.new }
        ensures value { Finds result (value_in self.old.sheet.now y.now) }
    {
        let id = self.numbered.number(y);
        match self.numbered.cell(id, steps)? {
            Evaluation::Enclosed(span) => Ok(span),
            Evaluation::Fault(fault, row) => Err(Stop::Value(fault, self.numbered.name(row))),
        }
    }

    /// The sensitivities of a quantity. Its value is not found again.
    ///
    /// # Errors
    ///
    /// [`Stop::Value`] exactly where it has no value, [`Stop::Law`] exactly where it has one and a sensitivity leaves
    /// the range of bounds, or out of memory.
    pub(crate) fn gradient<L: Ledger>(
        &mut self,
        y: &Name,
        steps: &mut Steps<L>,
    ) -> Result<Gradient, Stop>
        requires asked { IsAsked self.old }
        requires there { has_quantity self.old.sheet.now y.now ≡ true }
        ensures asked { IsStillAsked self.old self.new }
        ensures gradient { IfOk result (IsGradientIn self.old.sheet.now y.now) }
        ensures stop { IfErr result (λ stop. StopsAt stop (and_then (value_in self.old.sheet.now y.now) (λ value. gradient_in self.old.sheet.now y.now))) }
    {
        let id = self.numbered.number(y);
        let _cell = self.numbered.cell(id, steps)?;
        match gradient(
            self.alloc,
            &self.numbered.graph,
            &self.numbered.cache,
            id,
            steps,
        ) {
            Ok(found) => Ok(found),
            Err(fault) => Err(self.stop(fault)),
        }
    }

    // What a fault in the place of sensitivities is.
    fn stop(&self, fault: GradFault) -> Stop
        requires { HasNumber self.now.numbered.names.keys fault }
        ensures { IsStopOf self.now.numbered.names.keys fault result }
    {
        match fault {
            GradFault::Value(fault, row) => Stop::Value(fault, self.numbered.name(row)),
            GradFault::Law => Stop::Law,
            GradFault::OutOfMemory => Stop::OutOfMemory,
        }
    }

    /// The groups of the inputs.
    ///
    /// # Errors
    ///
    /// [`OutOfMemory`] where there is no memory for them.
    pub(crate) fn groups(&self) -> Result<GroupList, OutOfMemory>
        requires { IsAsked self.now }
        ensures { IfOk result (AreGroupsIn self.now.sheet.now) }
    {
        self.numbered.groups(self.alloc, self.sheet.rows())
    }
}

/// What the law needs of a quantity of a sheet.
///
/// # Errors
///
/// [`Stop::Value`] exactly where it has no value, then [`Stop::Law`] exactly where a sensitivity leaves the range of
/// bounds, or out of memory.
pub(crate) fn of_one<L: Ledger>(
    alloc: Global,
    sheet: &Sheet,
    y: &Name,
    steps: &mut Steps<L>,
) -> Result<OfOne, Stop>
    requires there { has_quantity sheet.now y.now ≡ true }
    ensures ok { IfOk result (IsOfOne sheet.now y.now) }
    ensures stop { IfErr result (StopsOne sheet.now y.now) }
{
    let mut asked = Asked::new(alloc, sheet)?;
    let value = asked.value(y, steps)?;
    let gradient = asked.gradient(y, steps)?;
    let groups = asked.groups()?;
    Ok(OfOne {
        value,
        gradient,
        groups,
    })
}

/// What the law needs of two quantities of a sheet.
///
/// # Errors
///
/// [`Stop::Value`] exactly where one of them has no value, for the first such, then [`Stop::Law`] exactly where a
/// sensitivity leaves the range of bounds, or out of memory.
pub(crate) fn of_two<L: Ledger>(
    alloc: Global,
    sheet: &Sheet,
    y: &Name,
    z: &Name,
    steps: &mut Steps<L>,
) -> Result<OfTwo, Stop>
    requires first { has_quantity sheet.now y.now ≡ true }
    requires second { has_quantity sheet.now z.now ≡ true }
    ensures ok { IfOk result (IsOfTwo sheet.now y.now z.now) }
    ensures stop { IfErr result (StopsTwo sheet.now y.now z.now) }
{
    let mut asked = Asked::new(alloc, sheet)?;
    let _first = asked.value(y, steps)?;
    let _second = asked.value(z, steps)?;
    let first = asked.gradient(y, steps)?;
    let second = asked.gradient(z, steps)?;
    let groups = asked.groups()?;
    Ok(OfTwo {
        first,
        second,
        groups,
    })
}
