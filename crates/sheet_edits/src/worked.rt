ghost use Rattle.std.specs.Prelude.{◌≡◌, true, false, [], ◌∷◌, ◌++◌, Ok, Err};
ghost use Rattle.sheet_rows.specs.declared.edit_fault.EditFault.TheVariants.{Duplicate, Unknown, NotEarlier, NotCorrelatable, AlreadyCorrelated, InUse};
ghost use Rattle.sheet_rows.specs.Rows.{row_rule};
ghost use Rattle.sheet_rows.specs.Sheets.{rule_of, has_rule};
ghost use Rattle.sheet_edits.specs.Verdicts.{verdict_add, verdict_set, verdict_remove};
ghost use Rattle.sheet_rows.specs.WorkedSheets.{named, std, rect, std_of_five, readings, table, same_as_column, correlation, same_as, at_most, sheet, inputs, correlated, more_inputs};

/// What comes of adding rows to small sheets: A is an input with half a width, B to E are inputs with a standard
/// deviation, P is the correlation of B and C, and a rule is at most a limit.
pub fn worked_additions()
    ensures half_width { verdict_add (sheet inputs) (correlation 80 65 66 5) ≡ Err (NotCorrelatable (named 65)) }
    ensures half_width_second { verdict_add (sheet inputs) (correlation 80 66 65 5) ≡ Err (NotCorrelatable (named 65)) }
    ensures correlated { verdict_add (sheet inputs) (correlation 80 66 67 5) ≡ Ok (sheet correlated) }
    ensures second_in_another { verdict_add (sheet more_inputs) (correlation 81 68 67 5) ≡ Err (AlreadyCorrelated (named 67)) }
    ensures first_in_another { verdict_add (sheet more_inputs) (correlation 81 66 68 5) ≡ Err (AlreadyCorrelated (named 66)) }
    ensures twice { verdict_add (sheet more_inputs) (correlation 82 68 68 5) ≡ Err (NotCorrelatable (named 68)) }
    ensures twice_in_another { verdict_add (sheet more_inputs) (correlation 82 66 66 5) ≡ Err (NotCorrelatable (named 66)) }
    ensures others { verdict_add (sheet more_inputs) (correlation 81 68 69 5) ≡ Ok (sheet (more_inputs ++ correlation 81 68 69 5 ∷ [])) }
    ensures same_name { verdict_add (sheet correlated) (correlation 80 65 90 5) ≡ Err (Duplicate (named 80)) }
    ensures no_row { verdict_add (sheet inputs) (correlation 80 65 90 5) ≡ Err (Unknown (named 90)) }
    ensures itself { verdict_add (sheet inputs) (correlation 80 66 80 5) ≡ Err (Unknown (named 80)) }
    ensures no_quantity { verdict_add (sheet correlated) (same_as 70 80) ≡ Err (Unknown (named 80)) }
    ensures quantity_of_itself { verdict_add (sheet inputs) (same_as 70 70) ≡ Err (NotEarlier (named 70)) }
    ensures mean { verdict_add (sheet (readings 77 ∷ [])) (same_as 70 77) ≡ Ok (sheet (readings 77 ∷ same_as 70 77 ∷ [])) }
    ensures column { verdict_add (sheet (table 84 (65 ∷ 66 ∷ []) ∷ [])) (same_as_column 70 84 66) ≡ Ok (sheet (table 84 (65 ∷ 66 ∷ []) ∷ same_as_column 70 84 66 ∷ [])) }
    ensures other_column { verdict_add (sheet (table 84 (65 ∷ 66 ∷ []) ∷ std 67 ∷ [])) (same_as_column 70 84 67) ≡ Err (Unknown (84 ∷ 46 ∷ 67 ∷ [])) }
    ensures table { verdict_add (sheet (table 84 (65 ∷ 66 ∷ []) ∷ [])) (same_as 70 84) ≡ Err (Unknown (named 84)) }
    ensures of_columns { verdict_add (sheet (table 84 (65 ∷ 66 ∷ []) ∷ std 66 ∷ [])) (correlation 80 84 66 5) ≡ Err (Unknown (named 84)) }
    ensures of_readings { verdict_add (sheet (readings 77 ∷ std 66 ∷ [])) (correlation 80 77 66 5) ≡ Err (NotCorrelatable (named 77)) }
    ensures rule { verdict_add (sheet inputs) (at_most 84 5) ≡ Ok (sheet (inputs ++ at_most 84 5 ∷ [])) }
    ensures rule_of_same_name { verdict_add (sheet inputs) (at_most 65 5) ≡ Err (Duplicate (named 65)) }
    ensures no_quantity_by_rule { verdict_add (sheet (at_most 84 5 ∷ [])) (same_as 70 84) ≡ Err (Unknown (named 84)) }
    ensures of_rule { verdict_add (sheet (at_most 84 5 ∷ std 66 ∷ [])) (correlation 80 84 66 5) ≡ Err (Unknown (named 84)) }
    ensures of_five { verdict_add (sheet (std_of_five 66 ∷ std 67 ∷ [])) (correlation 80 66 67 5) ≡ Err (NotCorrelatable (named 66)) }
{}

/// What comes of setting rows of these sheets.
pub fn worked_settings()
    ensures five_degrees { verdict_set (sheet correlated) (std_of_five 67) ≡ Err (InUse (named 80)) }
    ensures half_width { verdict_set (sheet correlated) (rect 66) ≡ Err (InUse (named 80)) }
    ensures readings { verdict_set (sheet correlated) (readings 66) ≡ Err (InUse (named 80)) }
    ensures as_before { verdict_set (sheet correlated) (std 66) ≡ Ok (sheet correlated) }
    ensures other_input { verdict_set (sheet correlated) (readings 65) ≡ Ok (sheet (readings 65 ∷ std 66 ∷ std 67 ∷ correlation 80 66 67 5 ∷ [])) }
    ensures coefficient { verdict_set (sheet correlated) (correlation 80 66 67 9) ≡ Ok (sheet (inputs ++ correlation 80 66 67 9 ∷ [])) }
    ensures twice { verdict_set (sheet correlated) (correlation 80 66 66 9) ≡ Err (NotCorrelatable (named 66)) }
    ensures input_now { verdict_set (sheet correlated) (std 80) ≡ Ok (sheet (inputs ++ std 80 ∷ [])) }
    ensures later { verdict_set (sheet more_inputs) (correlation 80 66 68 5) ≡ Err (NotEarlier (named 68)) }
    ensures in_another { verdict_set (sheet (more_inputs ++ correlation 81 68 69 5 ∷ [])) (correlation 81 67 68 5) ≡ Err (AlreadyCorrelated (named 67)) }
    ensures no_quantity_now { verdict_set (sheet (inputs ++ std 68 ∷ same_as 70 68 ∷ [])) (correlation 68 66 67 5) ≡ Err (InUse (named 70)) }
    ensures column { verdict_set (sheet (table 84 (65 ∷ 66 ∷ []) ∷ same_as_column 70 84 66 ∷ [])) (table 84 (65 ∷ [])) ≡ Err (InUse (named 70)) }
    ensures columns_moved { verdict_set (sheet (table 84 (65 ∷ 66 ∷ []) ∷ same_as_column 70 84 66 ∷ [])) (table 84 (66 ∷ 65 ∷ 67 ∷ []))
        ≡ Ok (sheet (table 84 (66 ∷ 65 ∷ 67 ∷ []) ∷ same_as_column 70 84 66 ∷ [])) }
    ensures no_table { verdict_set (sheet (same_as_column 70 84 66 ∷ [])) (same_as_column 70 84 66) ≡ Err (Unknown (84 ∷ 46 ∷ 66 ∷ [])) }
    ensures input_for_columns { verdict_set (sheet (table 84 (65 ∷ 66 ∷ []) ∷ same_as_column 70 84 66 ∷ [])) (std 84) ≡ Err (InUse (named 70)) }
    ensures rule_for_input { verdict_set (sheet (std 68 ∷ same_as 70 68 ∷ [])) (at_most 68 5) ≡ Err (InUse (named 70)) }
    ensures other_rule { verdict_set (sheet (at_most 84 5 ∷ inputs)) (at_most 84 6) ≡ Ok (sheet (at_most 84 6 ∷ inputs)) }
    ensures unused { verdict_set (sheet (inputs ++ std 68 ∷ [])) (correlation 68 66 67 5) ≡ Ok (sheet (inputs ++ correlation 68 66 67 5 ∷ [])) }
    ensures itself { verdict_set (sheet (inputs ++ std 68 ∷ [])) (correlation 68 66 68 5) ≡ Err (Unknown (named 68)) }
{}

/// What comes of removing rows of these sheets.
pub fn worked_removals()
    ensures correlated_input { verdict_remove (sheet correlated) (named 66) ≡ Err (InUse (named 80)) }
    ensures correlation { verdict_remove (sheet correlated) (named 80) ≡ Ok (sheet inputs) }
    ensures other_input { verdict_remove (sheet correlated) (named 65) ≡ Ok (sheet (std 66 ∷ std 67 ∷ correlation 80 66 67 5 ∷ [])) }
    ensures column { verdict_remove (sheet (table 84 (65 ∷ 66 ∷ []) ∷ same_as_column 70 84 66 ∷ [])) (named 84) ≡ Err (InUse (named 70)) }
    ensures table { verdict_remove (sheet (table 84 (65 ∷ 66 ∷ []) ∷ same_as 70 65 ∷ [])) (named 84) ≡ Ok (sheet (same_as 70 65 ∷ [])) }
    ensures rule { verdict_remove (sheet (inputs ++ at_most 84 5 ∷ [])) (named 84) ≡ Ok (sheet inputs) }
    ensures no_row { verdict_remove (sheet correlated) (named 90) ≡ Err (Unknown (named 90)) }
{}

/// The rules of names of these sheets.
pub fn worked_rules()
    ensures rule { rule_of (sheet (inputs ++ at_most 84 5 ∷ [])) (named 84) ≡ row_rule (at_most 84 5) }
    ensures other_rule { rule_of (sheet (at_most 84 5 ∷ at_most 85 6 ∷ [])) (named 85) ≡ row_rule (at_most 85 6) }
    ensures there { has_rule (sheet (inputs ++ at_most 84 5 ∷ [])) (named 84) ≡ true }
    ensures input { has_rule (sheet (inputs ++ at_most 84 5 ∷ [])) (named 65) ≡ false }
    ensures no_row { has_rule (sheet inputs) (named 84) ≡ false }
{}
