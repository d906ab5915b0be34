ghost use Rattle.std.specs.Prelude.{◌≡◌, true, if◌then◌else◌, List, [], ◌∷◌, ◌++◌, bytes_eq, map, IfOk, OnOk};
ghost use Rattle.std.specs.List.{list_any, list_all};
ghost use Rattle.formula_ast.specs.Names.{is_plain_name};
ghost use Rattle.table_records.specs.Header.{is_header};
ghost use Rattle.covariance.specs.Groups.{Single, AreRegular};
ghost use Rattle.covariance.specs.Renaming.{renamed_group};
ghost use Rattle.sheet_rows.specs.Rows.{Row as SheetRow, row_of, sheet_of, column_names, quantities_of, correlated_names};
ghost use Rattle.sheet_rows.specs.Regular.{IsRegular};
ghost use Rattle.sheet_rows.specs.Sheets.{IsStanding, are_named_once};
ghost use Rattle.sheet_model.specs.Quantities.{quantities};
ghost use Rattle.sheet_model.specs.Groups.{row_groups, groups};
ghost use Rattle.sheet_model.specs.Walks.{names};
ghost use Rattle.sheet_model.specs.Numbering.{number_in, number_among};
ghost use Rattle.sheet_model.specs.Statements.{AreStated};
ghost use Rattle.sheet_model.specs.Budgets.{group_names, row_names};

use crate::numbering::Numbered;
use crate::statements::Statements;
use covariance::{Group, GroupList};
use dep_graph::IdList;
use formula_ast::{Name, NameList};
use line_text::OutOfMemory;
use sheet_rows::{Row, column_name};
use std::alloc::Global;
use std::rc::Rc;
use type_b::{Dof, Shape};

impl Numbered {
    /// The groups of the inputs of the sheet of these rows (JCGM 100:2008, 5.2.2) by numbers, in the order of the rows.
    /// They share the readings of the rows. It goes through the rows twice, and finds what it needs of other rows by
    /// their names in a map and a set.
    ///
    /// # Errors
    ///
    /// [`OutOfMemory`] where there is no memory for them.
    pub fn groups(&self, alloc: Global, rows: &[Rc<Row>]) -> Result<GroupList, OutOfMemory>
        requires standing { IsStanding (sheet_of (map (λ row. row_of row.value) rows.now)) }
        requires names { self.now.names.keys ≡ names (quantities (sheet_of (map (λ row. row_of row.value) rows.now))) }
        ensures groups { IfOk result (λ found. let sheet = sheet_of (map (λ row. row_of row.value) rows.now) in
            found ≡ map (renamed_group (number_among (quantities sheet))) (groups sheet)) }
        ensures regular { IfOk result AreRegular }
    {
        let stated = Statements::of(alloc, rows)?;
        let mut groups = GroupList::new(alloc)?;
        for row in rows {
            self.add_group(alloc, &stated, row, &mut groups)?;
        }
        Ok(groups)
    }

    // Puts the group of a row at the end, where the row has one.
    fn add_group(
        &self,
        alloc: Global,
        stated: &Statements,
        row: &Row,
        groups: &mut GroupList,
    ) -> Result<(), OutOfMemory>
        requires regular { IsRegular (row_of row.now) }
        requires there { list_all (λ n. list_any (bytes_eq n) self.now.names.keys) (quantities_of (row_of row.now) ++ correlated_names (row_of row.now)) ≡ true }
        ensures { (rows : List SheetRow) → AreStated rows stated.now
            → OnOk result (groups.new ≡ groups.old ++ map (renamed_group (number_in self.now.names.keys)) (row_groups rows (row_of row.now))) }
    {
        match row {
            Row::Given {
                name,
                shape,
                dof,
                ..
            } => self.add_alone(stated, name, *shape, *dof, groups),
            Row::Readings { name, readings } => {
                let ids = self.one_number(alloc, name)?;
                groups.push(Group::Columns {
                    ids,
                    readings: readings.clone()?,
                })
            }
            Row::Joint {
                name,
                columns,
                readings,
            } => {
                let ids = self.column_numbers(alloc, name, columns.as_slice())?;
                groups.push(Group::Columns {
                    ids,
                    readings: readings.clone()?,
                })
            }
            Row::Correlation {
                first,
                second,
                coefficient,
                ..
            } => groups.push(Group::Pair {
                first: self.number(first),
                first_shape: stated.shape(first),
                second: self.number(second),
                second_shape: stated.shape(second),
                coefficient: *coefficient,
            }),
            Row::Formula { .. } | Row::Tolerance { .. } => Ok(()),
        }
    }

    // Puts the group of an input alone at the end, where no row correlates it.
    fn add_alone(
        &self,
        stated: &Statements,
        name: &Name,
        shape: Shape,
        dof: Dof,
        groups: &mut GroupList,
    ) -> Result<(), OutOfMemory>
        requires { list_any (bytes_eq name.now) self.now.names.keys ≡ true }
        ensures { OnOk result (groups.new ≡ groups.old ++ (if list_any (bytes_eq name.now) stated.now.correlated.keys then []
            else Single (number_in self.now.names.keys name.now) shape dof ∷ [])) }
    {
        if stated.is_correlated(name) {
            return Ok(());
        }
        groups.push(Group::Single {
            id: self.number(name),
            shape,
            dof,
        })
    }

    // The number of the quantity of this name, in a list.
    fn one_number(&self, alloc: Global, name: &Name) -> Result<IdList, OutOfMemory>
        requires { list_any (bytes_eq name.now) self.now.names.keys ≡ true }
        ensures { IfOk result (λ ids. ids ≡ number_in self.now.names.keys name.now ∷ []) }
    {
        let mut ids = IdList::new(alloc)?;
        ids.push(self.number(name))?;
        Ok(ids)
    }

    // The numbers of the quantities of the columns of a table.
    fn column_numbers(
        &self,
        alloc: Global,
        table: &Name,
        columns: &[Name],
    ) -> Result<IdList, OutOfMemory>
        requires table { is_plain_name table.now ≡ true }
        requires header { is_header columns.now ≡ true }
        requires there { list_all (λ n. list_any (bytes_eq n) self.now.names.keys) (column_names table.now columns.now) ≡ true }
        ensures { IfOk result (λ ids. ids ≡ map (number_in self.now.names.keys) (column_names table.now columns.now)) }
    {
        let mut ids = IdList::new(alloc)?;
        for column in columns {
            ids.push(self.number(&column_name(table, column)))?;
        }
        Ok(ids)
    }
}

/// The names of the rows that make the groups of the sheet of these rows, in the order of the groups.
///
/// # Errors
///
/// [`OutOfMemory`] where there is no memory for them.
pub fn group_names(alloc: Global, rows: &[Rc<Row>]) -> Result<NameList, OutOfMemory>
    requires { are_named_once (map (λ row. row_of row.value) rows.now) ≡ true }
    ensures { IfOk result (λ found. found ≡ group_names (sheet_of (map (λ row. row_of row.value) rows.now))) }
{
    let stated = Statements::of(alloc, rows)?;
    let mut found = NameList::new(alloc)?;
    for row in rows {
        add_name(&stated, row, &mut found)?;
    }
    Ok(found)
}

// Puts the name of a row at the end, where the row makes a group.
fn add_name(stated: &Statements, row: &Row, found: &mut NameList) -> Result<(), OutOfMemory>
    ensures { (rows : List SheetRow) → AreStated rows stated.now
        → OnOk result (found.new ≡ found.old ++ row_names rows (row_of row.now)) }
{
    match row {
        Row::Given { name, .. } => add_name_alone(stated, name, found),
        Row::Readings { name, .. } | Row::Joint { name, .. } | Row::Correlation { name, .. } =>
            found.push(*name),
        Row::Formula { .. } | Row::Tolerance { .. } => Ok(()),
    }
}

// Puts the name of an input at the end, where no row correlates it.
fn add_name_alone(stated: &Statements, name: &Name, found: &mut NameList) -> Result<(), OutOfMemory>
    ensures { OnOk result (found.new ≡ found.old ++ (if list_any (bytes_eq name.now) stated.now.correlated.keys then [] else name.now ∷ [])) }
{
    if !stated.is_correlated(name) {
        return found.push(*name);
    }
    Ok(())
}
