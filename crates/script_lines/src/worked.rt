//! Worked lines, blocks, commands and replies. Each function has an empty body, and its clauses are theorems on the
//! definitions.

ghost use Rattle.std.specs.Prelude.{◌≡◌, ℕ, List, [], ◌∷◌, true, false, length, pos, negsuc, Some, None, Ok, Err, codes};
ghost use Rattle.sheet_rows.specs.Rows.{Given, Readings, Joint, Correlation, Tolerance, Formula};
ghost use Rattle.type_a.specs.Tables.{single};
ghost use Rattle.formula_ast.specs.Trees.{Number};
ghost use Rattle.type_b.specs.declared.shape.Shape.TheVariants.{Exact};
ghost use Rattle.type_b.specs.declared.shape.Dof.TheVariants.{Inf};
ghost use Rattle.decimal18.specs.Bound.{scaled};
ghost use Rattle.round_out.specs.declared.coefficient.CorrSaid.{CorrSaid};
ghost use Rattle.round_out.specs.declared.outcome.Reported.{Reported};
ghost use Rattle.table_g2.specs.declared.known.Level.TheVariants.{L95, L9545, L99};
ghost use Rattle.table_g2.specs.declared.settled.DofSaid.{DofSaid};
ghost use Rattle.guard_band.specs.declared.rule.Form.TheVariants.{Four};
ghost use Rattle.guard_band.specs.declared.rule.Condition.TheVariants.{Guarded, Inside, Near};
ghost use Rattle.guard_band.specs.declared.rule.Said.{Said};
ghost use Rattle.budget_table.specs.declared.line.BudgetLine.TheVariants.{Input, Group};
ghost use Rattle.budget_table.specs.WorkedBudgets.{whole, from_to};
ghost use Rattle.sheet_rows.specs.declared.fault.RowFault.{RowFault};
ghost use Rattle.sheet_rows.specs.declared.edit_fault.EditFault.{EditFault};
ghost use Rattle.answers.specs.Commands.{Change, Add, Set, Remove, Undo, Redo, Mark, Restore, Ask, AskAt};
ghost use Rattle.answers.specs.declared.command.Query.TheVariants.{Value, Variance, Covariance, Correlation, Sensitivity, Degrees, Report, Expanded, Decide, Budget, Dump};
ghost use Rattle.answers.specs.declared.fault.LineFault.{LineFault};
ghost use Rattle.answers.specs.declared.fault.HistoryFault.{HistoryFault};
ghost use Rattle.answers.specs.declared.fault.MarkFault.{MarkFault};
ghost use Rattle.answers.specs.declared.fault.AskFault.{AskFault};
ghost use Rattle.answers.specs.declared.reply.Answer.{Answer};
ghost use Rattle.answers.specs.declared.reply.Reply.{Reply};
ghost use Rattle.fixed_interval.specs.declared.faults.ArithFault.{ArithFault};
ghost use Rattle.script_lines.specs.declared.item.Item.TheVariants.{Line, Block, LongLine, LongTable, UnclosedTable};
ghost use Rattle.script_lines.specs.Items.{is_long, block_item, items_of, whole_items_of};
ghost use Rattle.script_lines.specs.Commands.{command_read};
ghost use Rattle.script_lines.specs.Texts.{text_of_reply};

/// Texts and their lines.
pub fn worked_items()
    ensures none { items_of [] ≡ [] }
    ensures empty_line { items_of (codes "\n") ≡ Line [] ∷ [] }
    ensures last { items_of (codes "undo\ndump") ≡ Line (codes "undo") ∷ Line (codes "dump") ∷ [] }
    ensures whole { whole_items_of (codes "undo\ndump") ≡ Line (codes "undo") ∷ [] }
    ensures no_last { items_of (codes "undo\n") ≡ Line (codes "undo") ∷ [] }
    ensures returned { items_of (codes "undo\r\n\r\n") ≡ Line (codes "undo") ∷ Line [] ∷ [] }
    ensures two_returns { items_of (codes "undo\r\r\n") ≡ Line (codes "undo\r") ∷ [] }
    ensures last_return { items_of (codes "undo\r") ≡ Line (codes "undo\r") ∷ [] }
    ensures inner_return { items_of (codes "a\rb\n") ≡ Line (codes "a\rb") ∷ [] }
{}

/// Texts with blocks.
pub fn worked_blocks()
    ensures table { items_of (codes "table T\na\r\nend\nundo") ≡ Block (codes "table T") (codes "a\r\n") ∷ Line (codes "undo") ∷ [] }
    ensures set { items_of (codes " set\ttable # T\r\n1\n2\nend") ≡ Block (codes " set\ttable # T") (codes "1\n2\n") ∷ [] }
    ensures none { items_of (codes "tables\n# table\nX table\nset\n") ≡ Line (codes "tables") ∷ Line (codes "# table") ∷ Line (codes "X table") ∷ Line (codes "set") ∷ [] }
    ensures no_set { items_of (codes "settable\nset X table") ≡ Line (codes "settable") ∷ Line (codes "set X table") ∷ [] }
    ensures padded { items_of (codes "table\n \t\rend\r\t \nend\n") ≡ Block (codes "table") [] ∷ Line (codes "end") ∷ [] }
    ensures no_comment { items_of (codes "table\nend # x\nend#\n# end\nend\n") ≡ Block (codes "table") (codes "end # x\nend#\n# end\n") ∷ [] }
    ensures no_end { items_of (codes "table\nen\nends\nEND\nend\n") ≡ Block (codes "table") (codes "en\nends\nEND\n") ∷ [] }
    ensures quoted { items_of (codes "table\n\"\nend\n\"") ≡ Block (codes "table") (codes "\"\n") ∷ Line (codes "\"") ∷ [] }
    ensures inner { items_of (codes "table\ntable\nend\n") ≡ Block (codes "table") (codes "table\n") ∷ [] }
    ensures last { items_of (codes "table\n1\n end\r") ≡ Block (codes "table") (codes "1\n") ∷ [] }
    ensures last_return { items_of (codes "table\r") ≡ Line (codes "table\r") ∷ [] }
    ensures unclosed_head { items_of (codes "undo\ntable") ≡ Line (codes "undo") ∷ UnclosedTable ∷ [] }
    ensures unclosed { items_of (codes "table\n") ≡ UnclosedTable ∷ [] }
    ensures unclosed_lines { items_of (codes "table\n1\nend x") ≡ UnclosedTable ∷ [] }
    ensures whole { whole_items_of (codes "table\nend\ntable\nend") ≡ Block (codes "table") [] ∷ [] }
    ensures whole_left { whole_items_of (codes "undo\ntable\nundo\n") ≡ Line (codes "undo") ∷ [] }
{}

/// The most bytes of a line and of a block, and one more.
pub fn worked_limits()
    ensures line { (line : List ℕ) → length line ≡ 65536 → is_long line ≡ false }
    ensures long_line { (line : List ℕ) → length line ≡ 65537 → is_long line ≡ true }
    ensures block { (head body : List ℕ) → length body ≡ 1048576 → block_item head body ≡ Block head body }
    ensures long_block { (head body : List ℕ) → length body ≡ 1048577 → block_item head body ≡ LongTable }
{}

/// Lines and blocks that are commands, and lines that are none.
pub fn worked_commands()
    ensures empty { command_read (Line []) ≡ Ok None }
    ensures set { command_read (Line (codes "set let Y=5")) ≡ Ok (Some (Change (Set (Formula (codes "Y") (Number (scaled (pos 5) 0)))))) }
    ensures add { command_read (Line (codes "given X 5 exact")) ≡ Ok (Some (Change (Add (Given (codes "X") (scaled (pos 5) 0) Exact Inf)))) }
    ensures readings { command_read (Line (codes "set readings R 1 2.5"))
        ≡ Ok (Some (Change (Set (Readings (codes "R") ((scaled (pos 1) 0 ∷ []) ∷ (scaled (pos 25) 1 ∷ []) ∷ []))))) }
    ensures table { command_read (Block (codes "table T # two") (codes "V , I\n1,2.50\n3,4\n"))
        ≡ Ok (Some (Change (Add (Joint (codes "T") (codes "V" ∷ codes "I" ∷ [])
        ((scaled (pos 1) 0 ∷ scaled (pos 25) 1 ∷ []) ∷ (scaled (pos 3) 0 ∷ scaled (pos 4) 0 ∷ []) ∷ []))))) }
    ensures set_table { command_read (Block (codes " set\ttable T") (codes "V\n1\n2\n"))
        ≡ Ok (Some (Change (Set (Joint (codes "T") (codes "V" ∷ []) (single (scaled (pos 1) 0 ∷ scaled (pos 2) 0 ∷ [])))))) }
    ensures correlation { command_read (Line (codes "corr P A T.V -0.5"))
        ≡ Ok (Some (Change (Add (Correlation (codes "P") (codes "A") (codes "T.V") (scaled (negsuc 4) 1))))) }
    ensures tolerance { command_read (Line (codes "tol G upper 255 guard 1.5 four")) ≡ Ok (Some (Change (Add (Tolerance (codes "G")
        (record { lower = None; upper = Some (scaled (pos 255) 0); guard = scaled (pos 15) 1; form = Four }))))) }
    ensures blank { command_read (Line (codes " \t # undo")) ≡ Ok None }
    ensures undo { command_read (Line (codes " undo # back")) ≡ Ok (Some Undo) }
    ensures redo { command_read (Line (codes "redo")) ≡ Ok (Some Redo) }
    ensures mark { command_read (Line (codes "mark\tM")) ≡ Ok (Some (Mark (codes "M"))) }
    ensures restore { command_read (Line (codes "restore M")) ≡ Ok (Some (Restore (codes "M"))) }
    ensures remove { command_read (Line (codes "remove X")) ≡ Ok (Some (Change (Remove (codes "X")))) }
{}

/// Queries, to the present sheet and to one that is kept.
pub fn worked_queries()
    ensures value { command_read (Line (codes "value X")) ≡ Ok (Some (Ask (Value (codes "X")))) }
    ensures column { command_read (Line (codes "value T.V")) ≡ Ok (Some (Ask (Value (codes "T.V")))) }
    ensures variance { command_read (Line (codes "var T.V")) ≡ Ok (Some (Ask (Variance (codes "T.V")))) }
    ensures covariance { command_read (Line (codes "cov Y T.V")) ≡ Ok (Some (Ask (Covariance (codes "Y") (codes "T.V")))) }
    ensures correlation { command_read (Line (codes "r\tT.V T.I")) ≡ Ok (Some (Ask (Correlation (codes "T.V") (codes "T.I")))) }
    ensures sensitivity { command_read (Line (codes "sens Y X # 5.1.3")) ≡ Ok (Some (Ask (Sensitivity (codes "Y") (codes "X")))) }
    ensures degrees { command_read (Line (codes "dof Y # G.4.1")) ≡ Ok (Some (Ask (Degrees (codes "Y")))) }
    ensures report { command_read (Line (codes "report Y")) ≡ Ok (Some (Ask (Report (codes "Y")))) }
    ensures expanded { command_read (Line (codes "expanded Y 95")) ≡ Ok (Some (Ask (Expanded (codes "Y") L95))) }
    ensures expanded_9545 { command_read (Line (codes "expanded T.V 95.45 ")) ≡ Ok (Some (Ask (Expanded (codes "T.V") L9545))) }
    ensures expanded_99 { command_read (Line (codes "expanded Y 99#")) ≡ Ok (Some (Ask (Expanded (codes "Y") L99))) }
    ensures decision { command_read (Line (codes "decide T.V G 95.45")) ≡ Ok (Some (Ask (Decide (codes "T.V") (codes "G") L9545))) }
    ensures budget { command_read (Line (codes "budget T.V # 5.1.3")) ≡ Ok (Some (Ask (Budget (codes "T.V")))) }
    ensures dump { command_read (Line (codes "dump")) ≡ Ok (Some (Ask Dump)) }
    ensures at_value { command_read (Line (codes "at M value T.V")) ≡ Ok (Some (AskAt (codes "M") (Value (codes "T.V")))) }
    ensures at_sensitivity { command_read (Line (codes "at M sens T.V T.I")) ≡ Ok (Some (AskAt (codes "M") (Sensitivity (codes "T.V") (codes "T.I")))) }
    ensures at_correlation { command_read (Line (codes "at M r Y Z")) ≡ Ok (Some (AskAt (codes "M") (Correlation (codes "Y") (codes "Z")))) }
    ensures at_expanded { command_read (Line (codes "at M expanded Y 99")) ≡ Ok (Some (AskAt (codes "M") (Expanded (codes "Y") L99))) }
    ensures at_decision { command_read (Line (codes "at M decide Y G 99")) ≡ Ok (Some (AskAt (codes "M") (Decide (codes "Y") (codes "G") L99))) }
    ensures at_budget { command_read (Line (codes "at M budget Y")) ≡ Ok (Some (AskAt (codes "M") (Budget (codes "Y")))) }
    ensures at_dump { command_read (Line (codes "at M dump#")) ≡ Ok (Some (AskAt (codes "M") Dump)) }
{}

/// Lines and blocks that are no commands.
pub fn worked_refusals()
    ensures long { command_read LongLine ≡ Err LineFault.LongLine }
    ensures long_table { command_read LongTable ≡ Err LineFault.LongTable }
    ensures unclosed { command_read UnclosedTable ≡ Err LineFault.UnclosedTable }
    ensures shape { command_read (Block (codes "table T") (codes "V,I\n1,2\n3\n")) ≡ Err (LineFault.Row (RowFault.Shape 3)) }
    ensures wide { command_read (Block (codes "set table T") (codes "V\n1\n1000000000\n")) ≡ Err (LineFault.Row (RowFault.Wide 3)) }
    ensures few { command_read (Block (codes "table T") (codes "V\n1\n")) ≡ Err (LineFault.Row RowFault.TooFew) }
    ensures no_table_name { command_read (Block (codes "set table # T") []) ≡ Err (LineFault.Row (RowFault.Syntax 10)) }
    ensures table_column { command_read (Block (codes "table T.V") []) ≡ Err (LineFault.Row (RowFault.Syntax 7)) }
    ensures no_block { command_read (Line (codes "table T")) ≡ Err (LineFault.Row (RowFault.Syntax 1)) }
    ensures returned { command_read (Line (codes "undo\r")) ≡ Err (LineFault.Row (RowFault.Syntax 1)) }
    ensures superfluous { command_read (Line (codes "dump x")) ≡ Err (LineFault.Syntax 6) }
    ensures counted { command_read (Line (codes "undo 1")) ≡ Err (LineFault.Syntax 6) }
    ensures missing { command_read (Line (codes "mark  # M")) ≡ Err (LineFault.Syntax 5) }
    ensures no_name { command_read (Line (codes "mark 1")) ≡ Err (LineFault.Syntax 6) }
    ensures no_row { command_read (Line (codes "set")) ≡ Err (LineFault.Row (RowFault.Syntax 4)) }
    ensures other_word { command_read (Line (codes "set undo")) ≡ Err (LineFault.Row (RowFault.Syntax 5)) }
    ensures column { command_read (Line (codes "remove T.V")) ≡ Err (LineFault.Syntax 8) }
    ensures no_limit { command_read (Line (codes "tol G guard 1")) ≡ Err (LineFault.Row (RowFault.Syntax 7)) }
    ensures guard { command_read (Line (codes "set tol G lower 1 upper 0 guard 3.5")) ≡ Err (LineFault.Row RowFault.GuardRange) }
    ensures limits { command_read (Line (codes "set tol G lower 1 upper 0 guard 3")) ≡ Err (LineFault.Row RowFault.LimitOrder) }
    ensures no_second { command_read (Line (codes "corr A B 1")) ≡ Err (LineFault.Row (RowFault.Syntax 10)) }
    ensures unknown { command_read (Line (codes "  foo")) ≡ Err (LineFault.Row (RowFault.Syntax 3)) }
{}

/// Lines that are no queries. Any word may stand where a level is asked for; one that says none is refused only when all
/// words are read.
pub fn worked_query_refusals()
    ensures no_query { command_read (Line (codes "at M")) ≡ Err (LineFault.Syntax 5) }
    ensures no_edit { command_read (Line (codes "at M undo")) ≡ Err (LineFault.Syntax 6) }
    ensures no_result { command_read (Line (codes "at M value")) ≡ Err (LineFault.Syntax 11) }
    ensures no_names { command_read (Line (codes "sens")) ≡ Err (LineFault.Syntax 5) }
    ensures no_input { command_read (Line (codes "sens Y # X")) ≡ Err (LineFault.Syntax 7) }
    ensures no_input_name { command_read (Line (codes "at M sens Y 1")) ≡ Err (LineFault.Syntax 13) }
    ensures third_name { command_read (Line (codes "sens Y X Z")) ≡ Err (LineFault.Syntax 10) }
    ensures no_variance { command_read (Line (codes "var")) ≡ Err (LineFault.Syntax 4) }
    ensures no_variance_name { command_read (Line (codes "at M var 5")) ≡ Err (LineFault.Syntax 10) }
    ensures no_second { command_read (Line (codes "cov Y # Z")) ≡ Err (LineFault.Syntax 6) }
    ensures no_first_name { command_read (Line (codes "r .V Z")) ≡ Err (LineFault.Syntax 3) }
    ensures third { command_read (Line (codes "cov Y Z X")) ≡ Err (LineFault.Syntax 9) }
    ensures two_degrees { command_read (Line (codes "dof Y Z")) ≡ Err (LineFault.Syntax 7) }
    ensures report_level { command_read (Line (codes "report Y 95")) ≡ Err (LineFault.Syntax 10) }
    ensures no_level { command_read (Line (codes "expanded Y # 95")) ≡ Err (LineFault.Syntax 11) }
    ensures level_first { command_read (Line (codes "expanded 95 Y")) ≡ Err (LineFault.Syntax 10) }
    ensures after_level { command_read (Line (codes "expanded Y 95 %")) ≡ Err (LineFault.Syntax 15) }
    ensures other_level { command_read (Line (codes "expanded Y 90")) ≡ Err LineFault.Level }
    ensures same_number { command_read (Line (codes "expanded Y 95.0")) ≡ Err LineFault.Level }
    ensures level_word { command_read (Line (codes "at M expanded Y L")) ≡ Err LineFault.Level }
    ensures after_other_level { command_read (Line (codes "expanded Y 90 %")) ≡ Err (LineFault.Syntax 15) }
    ensures no_rule { command_read (Line (codes "decide Y")) ≡ Err (LineFault.Syntax 9) }
    ensures rule_column { command_read (Line (codes "decide Y T.V 95")) ≡ Err (LineFault.Syntax 10) }
    ensures no_decision_level { command_read (Line (codes "at M decide Y G")) ≡ Err (LineFault.Syntax 16) }
    ensures decision_level { command_read (Line (codes "decide Y G 90")) ≡ Err LineFault.Level }
    ensures after_decision { command_read (Line (codes "decide Y G 90 %")) ≡ Err (LineFault.Syntax 15) }
    ensures no_budget { command_read (Line (codes "budget")) ≡ Err (LineFault.Syntax 7) }
    ensures two_budgets { command_read (Line (codes "budget Y Z")) ≡ Err (LineFault.Syntax 10) }
{}

/// Replies and their texts.
pub fn worked_replies()
    ensures fine { text_of_reply Reply.Fine ≡ codes "ok\n" }
    ensures placed { text_of_reply (Reply.Line (LineFault.Syntax 12)) ≡ codes "refused syntax 12\n" }
    ensures row { text_of_reply (Reply.Line (LineFault.Row (RowFault.TooManyNodes 300))) ≡ codes "refused too_many_nodes 300\n" }
    ensures zero_k { text_of_reply (Reply.Line (LineFault.Row RowFault.ZeroK)) ≡ codes "refused zero_k\n" }
    ensures beta { text_of_reply (Reply.Line (LineFault.Row RowFault.Beta)) ≡ codes "refused beta\n" }
    ensures level { text_of_reply (Reply.Line (LineFault.Row RowFault.Level)) ≡ codes "refused level\n" }
    ensures dof_range { text_of_reply (Reply.Line (LineFault.Row RowFault.DofRange)) ≡ codes "refused dof_range\n" }
    ensures query_level { text_of_reply (Reply.Line LineFault.Level) ≡ codes "refused level\n" }
    ensures long { text_of_reply (Reply.Line LineFault.LongLine) ≡ codes "refused long_line\n" }
    ensures coefficient { text_of_reply (Reply.Line (LineFault.Row RowFault.RRange)) ≡ codes "refused r_range\n" }
    ensures guard { text_of_reply (Reply.Line (LineFault.Row RowFault.GuardRange)) ≡ codes "refused guard_range\n" }
    ensures limits { text_of_reply (Reply.Line (LineFault.Row RowFault.LimitOrder)) ≡ codes "refused limit_order\n" }
    ensures few { text_of_reply (Reply.Line (LineFault.Row RowFault.TooFew)) ≡ codes "refused too_few\n" }
    ensures many { text_of_reply (Reply.Line (LineFault.Row RowFault.TooMany)) ≡ codes "refused too_many\n" }
    ensures shape { text_of_reply (Reply.Line (LineFault.Row (RowFault.Shape 3))) ≡ codes "refused shape 3\n" }
    ensures wide { text_of_reply (Reply.Line (LineFault.Row (RowFault.Wide 12))) ≡ codes "refused wide 12\n" }
    ensures long_table { text_of_reply (Reply.Line LineFault.LongTable) ≡ codes "refused long_table\n" }
    ensures open_table { text_of_reply (Reply.Line LineFault.UnclosedTable) ≡ codes "refused open_table\n" }
    ensures full { text_of_reply (Reply.Edit EditFault.RowsFull) ≡ codes "refused rows_full\n" }
    ensures used { text_of_reply (Reply.Edit (EditFault.InUse (codes "Y"))) ≡ codes "refused in_use Y\n" }
    ensures earlier { text_of_reply (Reply.Edit (EditFault.NotEarlier (codes "Y"))) ≡ codes "refused not_earlier Y\n" }
    ensures no_correlation { text_of_reply (Reply.Edit (EditFault.NotCorrelatable (codes "A"))) ≡ codes "refused not_correlatable A\n" }
    ensures correlated { text_of_reply (Reply.Edit (EditFault.AlreadyCorrelated (codes "A"))) ≡ codes "refused already_correlated A\n" }
    ensures undo { text_of_reply (Reply.History HistoryFault.NothingToUndo) ≡ codes "refused nothing_to_undo\n" }
    ensures redo { text_of_reply (Reply.History HistoryFault.NothingToRedo) ≡ codes "refused nothing_to_redo\n" }
    ensures marks { text_of_reply (Reply.Mark MarkFault.MarksFull) ≡ codes "refused marks_full\n" }
    ensures mark { text_of_reply (Reply.Ask (AskFault.NoMark (codes "M"))) ≡ codes "refused no_mark M\n" }
    ensures result { text_of_reply (Reply.Ask (AskFault.NoSuchResult (codes "T.V"))) ≡ codes "refused no_such_result T.V\n" }
    ensures fault { text_of_reply (Reply.Said (Answer.ValueFault ArithFault.ZeroDivisor (codes "Y"))) ≡ codes "fault zero_divisor Y\n" }
    ensures value { text_of_reply (Reply.Said (Answer.Value (codes "Y") (record { lo = scaled (pos 5) 1; hi = scaled (pos 7) 0 })))
        ≡ codes "value Y 0.5 7\n" }
    ensures sensitivity { text_of_reply (Reply.Said (Answer.Sensitivity (codes "Y") (codes "T.V") (record { lo = scaled (negsuc 4) 1; hi = scaled (pos 7) 0 })))
        ≡ codes "sens Y T.V -0.5 7\n" }
    ensures law_fault { text_of_reply (Reply.Said Answer.LawOverflow) ≡ codes "fault law_overflow\n" }
    ensures no_rows { text_of_reply (Reply.Said (Answer.Dump [])) ≡ codes "ok\n" }
    ensures rows { text_of_reply (Reply.Said (Answer.Dump (Given (codes "X") (scaled (pos 5) 0) Exact Inf ∷ Formula (codes "Y") (Number (scaled (pos 5) 0)) ∷ [])))
        ≡ codes "given X 5 exact\nlet Y = 5\nok\n" }
    ensures table { text_of_reply (Reply.Said (Answer.Dump (Joint (codes "T") (codes "V" ∷ codes "I" ∷ [])
        ((scaled (pos 1) 0 ∷ scaled (pos 25) 1 ∷ []) ∷ (scaled (pos 3) 0 ∷ scaled (pos 4) 0 ∷ []) ∷ []) ∷ [])))
        ≡ codes "table T\nV,I\n1,2.5\n3,4\nend\nok\n" }
{}

/// Answers on variances, covariances and correlation coefficients, and their texts.
pub fn worked_moments()
    ensures variance { text_of_reply (Reply.Said (Answer.Variance (codes "Y") (record { lo = scaled (pos 5) 1; hi = scaled (pos 7) 0 })))
        ≡ codes "var Y 0.5 7\n" }
    ensures covariance { text_of_reply (Reply.Said (Answer.Covariance (codes "Y") (codes "T.V") (record { lo = scaled (negsuc 4) 1; hi = scaled (pos 7) 0 })))
        ≡ codes "cov Y T.V -0.5 7\n" }
    ensures negative { text_of_reply (Reply.Said (Answer.Correlation (codes "T.V") (codes "T.I") (CorrSaid.Hundredths (negsuc 35)))) ≡ codes "r T.V T.I -0.36\n" }
    ensures one { text_of_reply (Reply.Said (Answer.Correlation (codes "A") (codes "B") (CorrSaid.Hundredths (pos 100)))) ≡ codes "r A B 1.00\n" }
    ensures no_hundredths { text_of_reply (Reply.Said (Answer.Correlation (codes "A") (codes "B") (CorrSaid.Hundredths (pos 0)))) ≡ codes "r A B 0.00\n" }
    ensures no_coefficient { text_of_reply (Reply.Said (Answer.Correlation (codes "A") (codes "B") CorrSaid.None)) ≡ codes "r A B none\n" }
    ensures unsettled { text_of_reply (Reply.Said (Answer.Correlation (codes "A") (codes "B") CorrSaid.Unsettled)) ≡ codes "r A B undecided\n" }
{}

/// Answers on degrees of freedom and on what is reported, and their texts.
pub fn worked_reports()
    ensures whole { text_of_reply (Reply.Said (Answer.Degrees (codes "Z") (DofSaid.Whole 4))) ≡ codes "dof Z 4\n" }
    ensures big { text_of_reply (Reply.Said (Answer.Degrees (codes "Z") DofSaid.Big)) ≡ codes "dof Z big\n" }
    ensures infinite { text_of_reply (Reply.Said (Answer.Degrees (codes "Z") DofSaid.Infinite)) ≡ codes "dof Z inf\n" }
    ensures no_degrees { text_of_reply (Reply.Said (Answer.Degrees (codes "Z") DofSaid.None)) ≡ codes "dof Z none\n" }
    ensures unsettled_degrees { text_of_reply (Reply.Said (Answer.Degrees (codes "Z") DofSaid.Unsettled)) ≡ codes "dof Z undecided\n" }
    ensures report { text_of_reply (Reply.Said (Answer.Report (codes "Z") (Reported.Rounded (pos 25426) 24 (negsuc 1)))) ≡ codes "report Z 254.26 u 0.24\n" }
    ensures tens { text_of_reply (Reply.Said (Answer.Report (codes "Z") (Reported.Rounded (negsuc 12) 10 (pos 1)))) ≡ codes "report Z -130 u 100\n" }
    ensures exact { text_of_reply (Reply.Said (Answer.Report (codes "S") (Reported.Exact (scaled (pos 31) 1)))) ≡ codes "report S 3.1 u 0\n" }
    ensures unsettled { text_of_reply (Reply.Said (Answer.Report (codes "Z") Reported.Unsettled)) ≡ codes "report Z undecided\n" }
    ensures expanded { text_of_reply (Reply.Said (Answer.Expanded (codes "Z") (Reported.Rounded (pos 25426) 66 (negsuc 1)) (scaled (pos 278) 2)))
        ≡ codes "expanded Z 254.26 U 0.66 k 2.78\n" }
    ensures exact_expanded { text_of_reply (Reply.Said (Answer.Expanded (codes "S") (Reported.Exact (scaled (pos 3) 0)) (scaled (pos 196) 2)))
        ≡ codes "expanded S 3 U 0 k 1.96\n" }
    ensures unsettled_expanded { text_of_reply (Reply.Said (Answer.Expanded (codes "Z") Reported.Unsettled (scaled (pos 278) 2))) ≡ codes "expanded Z undecided\n" }
{}

/// Statements of conformity, and their texts.
pub fn worked_decisions()
    ensures pass { text_of_reply (Reply.Said (Answer.Decision (codes "Z") (codes "G") Said.Pass)) ≡ codes "decide Z G Pass\n" }
    ensures conditional_pass { text_of_reply (Reply.Said (Answer.Decision (codes "Z") (codes "G") Said.ConditionalPass)) ≡ codes "decide Z G ConditionalPass\n" }
    ensures conditional_fail { text_of_reply (Reply.Said (Answer.Decision (codes "Z") (codes "G") Said.ConditionalFail)) ≡ codes "decide Z G ConditionalFail\n" }
    ensures fail { text_of_reply (Reply.Said (Answer.Decision (codes "Z") (codes "G") Said.Fail)) ≡ codes "decide Z G Fail\n" }
    ensures guarded { text_of_reply (Reply.Said (Answer.Decision (codes "T.V") (codes "G") (Said.Undecided Guarded))) ≡ codes "decide T.V G Undecided 1\n" }
    ensures inside { text_of_reply (Reply.Said (Answer.Decision (codes "Z") (codes "G") (Said.Undecided Inside))) ≡ codes "decide Z G Undecided 2\n" }
    ensures near { text_of_reply (Reply.Said (Answer.Decision (codes "Z") (codes "G") (Said.Undecided Near))) ≡ codes "decide Z G Undecided 3\n" }
{}

/// Budgets, and their texts.
pub fn worked_budgets()
    ensures lines { text_of_reply (Reply.Said (Answer.Budget
        (Input (codes "A") (whole (pos 5)) (whole (pos 4)) (whole (pos 1)) (whole (pos 4))
        ∷ Input (codes "T.V") (from_to (pos 3) (pos 4)) (whole (pos 1)) (from_to (negsuc 1) (negsuc 0)) (from_to (pos 1) (pos 4))
        ∷ Group (codes "G") (from_to (pos 3) (pos 5)) ∷ []) (codes "Y") (from_to (pos 3) (pos 5))))
        ≡ codes "input A value 5 5 var 4 4 sens 1 1 own 4 4\ninput T.V value 3 4 var 1 1 sens -2 -1 own 1 4\ngroup G 3 5\nbudget Y 3 5\n" }
    ensures no_lines { text_of_reply (Reply.Said (Answer.Budget [] (codes "C") (whole (pos 0)))) ≡ codes "budget C 0 0\n" }
{}
