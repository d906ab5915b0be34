//! Worked rows. Each function has an empty body, and its clauses are theorems on the definitions.

ghost use Rattle.std.specs.Prelude.{◌≡◌, [], ◌∷◌, None, Some, pos, negsuc, Ok, Err, codes};
ghost use Rattle.decimal18.specs.Bound.{scaled};
ghost use Rattle.type_b.specs.declared.shape.Shape.TheVariants.{Exact, Std, Exp, Norm, Rect, Tri, Trap, Arcsine};
ghost use Rattle.type_b.specs.declared.shape.Dof.TheVariants.{Inf, Whole, Rel};
ghost use Rattle.type_a.specs.Tables.{single};
ghost use Rattle.guard_band.specs.declared.rule.Form.TheVariants.{Binary, Four};
ghost use Rattle.sheet_rows.specs.Rows.{Given, Readings, Joint, Correlation, Tolerance};
ghost use Rattle.row_text.specs.Reading.{row_read};
ghost use Rattle.row_text.specs.Tables.{table_read};
ghost use Rattle.row_text.specs.Printing.{printed};
ghost use Rattle.sheet_rows.specs.declared.fault.RowFault.TheVariants.{Syntax, NotNumber, NumberRange, Negative, ZeroK, Beta, Level, DofRange, RRange, GuardRange, LimitOrder, TooFew, Shape, Wide};

/// The word of each shape, with its parameters in their order.
pub fn worked_shapes()
    ensures exact { row_read (codes "given X 5 exact") 0 ≡ Ok (Given (codes "X") (scaled (pos 5) 0) Exact Inf) }
    ensures std { row_read (codes "given X 5 std 1") 0 ≡ Ok (Given (codes "X") (scaled (pos 5) 0) (Std (scaled (pos 1) 0)) Inf) }
    ensures exp { row_read (codes "given X 5 exp 1 2") 0 ≡ Ok (Given (codes "X") (scaled (pos 5) 0) (Exp (scaled (pos 1) 0) (scaled (pos 2) 0)) Inf) }
    ensures norm_90 { row_read (codes "given X 5 norm 1 90") 0 ≡ Ok (Given (codes "X") (scaled (pos 5) 0) (Norm (scaled (pos 1) 0) 90) Inf) }
    ensures norm_95 { row_read (codes "given X 5 norm 1 95") 0 ≡ Ok (Given (codes "X") (scaled (pos 5) 0) (Norm (scaled (pos 1) 0) 95) Inf) }
    ensures norm_99 { row_read (codes "given X 5 norm 1 99") 0 ≡ Ok (Given (codes "X") (scaled (pos 5) 0) (Norm (scaled (pos 1) 0) 99) Inf) }
    ensures rect { row_read (codes "given X 5 rect 1") 0 ≡ Ok (Given (codes "X") (scaled (pos 5) 0) (Rect (scaled (pos 1) 0)) Inf) }
    ensures tri { row_read (codes "given X 5 tri 1") 0 ≡ Ok (Given (codes "X") (scaled (pos 5) 0) (Tri (scaled (pos 1) 0)) Inf) }
    ensures trap { row_read (codes "given X 5 trap 1 0.5") 0 ≡ Ok (Given (codes "X") (scaled (pos 5) 0) (Trap (scaled (pos 1) 0) (scaled (pos 5) 1)) Inf) }
    ensures arcsine { row_read (codes "given X 5 arcsine 1") 0 ≡ Ok (Given (codes "X") (scaled (pos 5) 0) (Arcsine (scaled (pos 1) 0)) Inf) }
{}

/// What is stated of degrees of freedom.
pub fn worked_degrees()
    ensures infinite { row_read (codes "given X 5 exact dof inf") 0 ≡ Ok (Given (codes "X") (scaled (pos 5) 0) Exact Inf) }
    ensures dof { row_read (codes "given X 5 exact dof 01") 0 ≡ Ok (Given (codes "X") (scaled (pos 5) 0) Exact (Whole 1)) }
    ensures most { row_read (codes "given X 5 exact dof 1000000") 0 ≡ Ok (Given (codes "X") (scaled (pos 5) 0) Exact (Whole 1000000)) }
    ensures rel { row_read (codes "given X 5 exact rel 70") 0 ≡ Ok (Given (codes "X") (scaled (pos 5) 0) Exact (Rel 70)) }
{}

/// Inputs that are refused. Where several rules are broken, one is told.
pub fn worked_refusals()
    ensures word_first { row_read (codes "given X 5 std -1 2") 0 ≡ Err (Syntax 18) }
    ensures level_first { row_read (codes "given X 5 norm 2 dof 5") 0 ≡ Err (Syntax 22) }
    ensures negative_first { row_read (codes "given X 5 exp -1 0") 0 ≡ Err Negative }
    ensures zero_k { row_read (codes "given X 5 exp 1 0 dof 0") 0 ≡ Err ZeroK }
    ensures beta { row_read (codes "given X 5 trap 1 1.1") 0 ≡ Err Beta }
    ensures level { row_read (codes "given X 5 norm 2 095") 0 ≡ Err Level }
    ensures nothing { row_read (codes "given X 5 exact dof 0") 0 ≡ Err DofRange }
    ensures above { row_read (codes "given X 5 exact dof 1000001") 0 ≡ Err DofRange }
    ensures long { row_read (codes "given X 5 exact dof 00000001") 0 ≡ Err DofRange }
    ensures percent { row_read (codes "given X 5 exact rel 71") 0 ≡ Err DofRange }
    ensures long_percent { row_read (codes "given X 5 exact rel 001") 0 ≡ Err DofRange }
{}

/// Inputs by readings: how many there are is looked at before how wide they are, and both when all words are read.
pub fn worked_readings()
    ensures row { row_read (codes "readings R 1 2.50") 0 ≡ Ok (Readings (codes "R") (single (scaled (pos 1) 0 ∷ scaled (pos 25) 1 ∷ []))) }
    ensures none { row_read (codes "readings R") 0 ≡ Err TooFew }
    ensures one { row_read (codes "readings R 1") 0 ≡ Err TooFew }
    ensures few_first { row_read (codes "readings R 1000000000") 0 ≡ Err TooFew }
    ensures wide { row_read (codes "readings R 1000000000 1") 0 ≡ Err (Wide 1) }
    ensures wide_by_places { row_read (codes "readings R 1 2000 1e-12") 0 ≡ Err (Wide 2) }
    ensures number_first { row_read (codes "readings R 1 x") 0 ≡ Err (NotNumber 14) }
    ensures range_first { row_read (codes "readings R 1e999 x") 0 ≡ Err (NumberRange 12) }
    ensures name { row_read (codes "readings 2R 1 2") 0 ≡ Err (Syntax 10) }
    ensures no_name { row_read (codes "readings") 0 ≡ Err (Syntax 9) }
{}

/// Inputs by joint readings. The line is looked at before the block, and the records before whether there are enough
/// and whether they are too wide.
pub fn worked_tables()
    ensures row { table_read (codes "table PLAIN") 0 (codes "A,B\n1,2\n3,4.50\n") ≡ Ok (Joint (codes "PLAIN") (codes "A" ∷ codes "B" ∷ [])
        ((scaled (pos 1) 0 ∷ scaled (pos 2) 0 ∷ []) ∷ (scaled (pos 3) 0 ∷ scaled (pos 45) 1 ∷ []) ∷ [])) }
    ensures set { table_read (codes "set table T # two") 3 (codes " V\n1\n\"2\"") ≡ Ok (Joint (codes "T") (codes "V" ∷ []) (single (scaled (pos 1) 0 ∷ scaled (pos 2) 0 ∷ []))) }
    ensures shape { table_read (codes "table T") 0 (codes "V,I\n1,2\n3\n") ≡ Err (Shape 3) }
    ensures header { table_read (codes "table T") 0 (codes "V,V\n1\n") ≡ Err (Shape 1) }
    ensures number { table_read (codes "table T") 0 (codes "V,I\n1,2\n3,x\n") ≡ Err (NotNumber 3) }
    ensures range { table_read (codes "table T") 0 (codes "V,I\n1,1e999\n") ≡ Err (NumberRange 2) }
    ensures empty { table_read (codes "table T") 0 [] ≡ Err TooFew }
    ensures one { table_read (codes "table T") 0 (codes "V\n1000000000\n") ≡ Err TooFew }
    ensures wide { table_read (codes "table T") 0 (codes "V,I\n1,1000000000\n2,3\n") ≡ Err (Wide 2) }
    ensures wide_by_places { table_read (codes "table T") 0 (codes "V,I\n1,2\n3,4\n2000,1e-12\n") ≡ Err (Wide 4) }
    ensures number_first { table_read (codes "table T") 0 (codes "V\n1000000000\nx\n") ≡ Err (NotNumber 3) }
    ensures no_name { table_read (codes "table") 0 (codes "V\n1\n2\n") ≡ Err (Syntax 6) }
    ensures name { table_read (codes "set table T.V") 3 (codes "V\n1\n2\n") ≡ Err (Syntax 11) }
    ensures word_more { table_read (codes "table T x") 0 (codes "V\n1\n2\n") ≡ Err (Syntax 9) }
    ensures other_word { table_read (codes "tables T") 0 (codes "V\n1\n2\n") ≡ Err (Syntax 1) }
    ensures line_first { table_read (codes "table 2") 0 [] ≡ Err (Syntax 7) }
{}

/// A line without a block gives no table, and no row begins with another word.
pub fn worked_other_kinds()
    ensures table { row_read (codes "table T") 0 ≡ Err (Syntax 1) }
    ensures other { row_read (codes "tolerance T upper 1 guard 1") 0 ≡ Err (Syntax 1) }
{}

/// Correlations.
pub fn worked_correlations()
    ensures row { row_read (codes "corr P T.V B 0.5") 0 ≡ Ok (Correlation (codes "P") (codes "T.V") (codes "B") (scaled (pos 5) 1)) }
    ensures least { row_read (codes "corr P A B -1") 0 ≡ Ok (Correlation (codes "P") (codes "A") (codes "B") (scaled (negsuc 0) 0)) }
    ensures most { row_read (codes "corr P A B 1.0") 0 ≡ Ok (Correlation (codes "P") (codes "A") (codes "B") (scaled (pos 1) 0)) }
    ensures above { row_read (codes "corr P A B 1.01") 0 ≡ Err RRange }
    ensures below { row_read (codes "corr P A B -1.01") 0 ≡ Err RRange }
    ensures word_first { row_read (codes "corr P A B 2 3") 0 ≡ Err (Syntax 14) }
    ensures number { row_read (codes "corr P A B C") 0 ≡ Err (NotNumber 12) }
    ensures no_number { row_read (codes "corr P A B") 0 ≡ Err (Syntax 11) }
    ensures name { row_read (codes "corr T.V A B 1") 0 ≡ Err (Syntax 6) }
    ensures other_name { row_read (codes "corr P A 0.5") 0 ≡ Err (Syntax 10) }
{}

/// Rules of conformity. The guard factor is looked at before the order of the limits, and both when all words are read.
pub fn worked_tolerances()
    ensures both { row_read (codes "tol T lower 1 upper 2.50 guard 0.125 four") 0 ≡ Ok (Tolerance (codes "T")
        (record { lower = Some (scaled (pos 1) 0); upper = Some (scaled (pos 25) 1); guard = scaled (pos 125) 3; form = Four })) }
    ensures lower { row_read (codes "tol T lower -1 guard 0") 0 ≡ Ok (Tolerance (codes "T")
        (record { lower = Some (scaled (negsuc 0) 0); upper = None; guard = scaled (pos 0) 0; form = Binary })) }
    ensures upper { row_read (codes "tol T upper 2 guard 3") 0 ≡ Ok (Tolerance (codes "T")
        (record { lower = None; upper = Some (scaled (pos 2) 0); guard = scaled (pos 3) 0; form = Binary })) }
    ensures equal { row_read (codes "tol T lower 1 upper 1 guard 0.5000") 0 ≡ Ok (Tolerance (codes "T")
        (record { lower = Some (scaled (pos 1) 0); upper = Some (scaled (pos 1) 0); guard = scaled (pos 5) 1; form = Binary })) }
    ensures no_limit { row_read (codes "tol T guard 1") 0 ≡ Err (Syntax 7) }
    ensures no_guard { row_read (codes "tol T lower 1") 0 ≡ Err (Syntax 14) }
    ensures other_order { row_read (codes "tol T upper 2 lower 1 guard 1") 0 ≡ Err (Syntax 15) }
    ensures other_word { row_read (codes "tol T lower 1 guard 1 five") 0 ≡ Err (Syntax 23) }
    ensures word_more { row_read (codes "tol T lower 1 guard 1 four 4") 0 ≡ Err (Syntax 28) }
    ensures number { row_read (codes "tol T lower x guard 1") 0 ≡ Err (NotNumber 13) }
    ensures name { row_read (codes "tol T.V upper 1 guard 1") 0 ≡ Err (Syntax 5) }
    ensures above { row_read (codes "tol T upper 1 guard 3.001") 0 ≡ Err GuardRange }
    ensures below { row_read (codes "tol T upper 1 guard -0.001") 0 ≡ Err GuardRange }
    ensures decimals { row_read (codes "tol T upper 1 guard 0.0005") 0 ≡ Err GuardRange }
    ensures word_first { row_read (codes "tol T lower 2 upper 1 guard 4 five") 0 ≡ Err (Syntax 31) }
    ensures guard_first { row_read (codes "tol T lower 2 upper 1 guard 4") 0 ≡ Err GuardRange }
    ensures order { row_read (codes "tol T lower 2 upper 1 guard 1") 0 ≡ Err LimitOrder }
{}

/// Rows as they are printed.
pub fn worked_texts()
    ensures infinite { printed (Given (codes "X") (scaled (pos 5) 0) (Exp (scaled (pos 5) 2) (scaled (pos 2) 0)) Inf) ≡ codes "given X 5 exp 0.05 2" }
    ensures whole { printed (Given (codes "X") (scaled (pos 5) 0) (Norm (scaled (pos 1) 0) 95) (Whole 12)) ≡ codes "given X 5 norm 1 95 dof 12" }
    ensures relative { printed (Given (codes "X") (scaled (pos 5) 0) (Trap (scaled (pos 1) 0) (scaled (pos 5) 1)) (Rel 5)) ≡ codes "given X 5 trap 1 0.5 rel 5" }
    ensures readings { printed (Readings (codes "X") (single (scaled (pos 1) 0 ∷ scaled (pos 25) 1 ∷ scaled (pos 3) 0 ∷ []))) ≡ codes "readings X 1 2.5 3" }
    ensures table { printed (Joint (codes "PLAIN") (codes "A" ∷ codes "B" ∷ [])
        ((scaled (pos 1) 0 ∷ scaled (pos 2) 0 ∷ []) ∷ (scaled (pos 3) 0 ∷ scaled (pos 45) 1 ∷ []) ∷ [])) ≡ codes "table PLAIN\nA,B\n1,2\n3,4.5\nend" }
    ensures one_column { printed (Joint (codes "T") (codes "V" ∷ []) (single (scaled (negsuc 0) 0 ∷ scaled (pos 0) 0 ∷ []))) ≡ codes "table T\nV\n-1\n0\nend" }
    ensures correlation { printed (Correlation (codes "P") (codes "A") (codes "B") (scaled (negsuc 4) 1)) ≡ codes "corr P A B -0.5" }
    ensures limits { printed (Tolerance (codes "T")
        (record { lower = Some (scaled (negsuc 0) 0); upper = Some (scaled (pos 25) 1); guard = scaled (pos 5) 1; form = Four }))
        ≡ codes "tol T lower -1 upper 2.5 guard 0.5 four" }
    ensures limit { printed (Tolerance (codes "T") (record { lower = None; upper = Some (scaled (pos 2) 0); guard = scaled (pos 1) 0; form = Binary }))
        ≡ codes "tol T upper 2 guard 1" }
{}
