ghost use Rattle.std.specs.Prelude.{◌≡◌, [], ◌∷◌, ◌++◌, codes, replicate, Ok, Err, pos, negsuc};
ghost use Rattle.decimal18.specs.Bound.{scaled};
ghost use Rattle.table_records.specs.declared.fault.RecordsFault.TheVariants.{TooFew, Shape, NotNumber, NumberRange};
ghost use Rattle.table_records.specs.Tables.{records_read, table_in};
ghost use Rattle.table_records.specs.Worked.{whole, table, column, marked, eight_letters};

/// What some texts are read as: blanks at the ends of a field, quotes, a byte order mark at the start and lines
/// without bytes are passed, and a record ends with a line feed, a carriage return or both.
pub fn worked_tables()
    ensures rows { records_read (codes "V,I\n1,-2\n3,4.50\n") ≡ Ok (table (codes "V" ∷ codes "I" ∷ [])
        ((whole 1 ∷ scaled (negsuc 1) 0 ∷ []) ∷ (whole 3 ∷ scaled (pos 45) 1 ∷ []) ∷ [])) }
    ensures no_rows { records_read (codes "V") ≡ Ok (column (codes "V") []) }
    ensures blanks { records_read (codes "V , I\n 3 ,\t4 \t\n") ≡ Ok (table (codes "V" ∷ codes "I" ∷ []) ((whole 3 ∷ whole 4 ∷ []) ∷ [])) }
    ensures quotes { records_read (codes "\"V\",\"I\"\n\"1\",\" 2 \"\n") ≡ Ok (table (codes "V" ∷ codes "I" ∷ []) ((whole 1 ∷ whole 2 ∷ []) ∷ [])) }
    ensures digit_after_quotes { records_read (codes "V\n\"1\"2\n") ≡ Ok (column (codes "V") (12 ∷ [])) }
    ensures open_quote { records_read (codes "V\n\"1") ≡ Ok (column (codes "V") (1 ∷ [])) }
    ensures mark { records_read (marked (codes "V\n1\n")) ≡ Ok (column (codes "V") (1 ∷ [])) }
    ensures empty_lines { records_read (codes "\n\nV\n\n1\r\n\r\n2\n\n") ≡ Ok (column (codes "V") (1 ∷ 2 ∷ [])) }
    ensures returns { records_read (codes "V\r1\r\n2") ≡ Ok (column (codes "V") (1 ∷ 2 ∷ [])) }
    ensures eight { records_read (codes "A,B,C,D,E,F,G,H\n") ≡ Ok (table eight_letters []) }
    ensures longest { records_read (replicate 24 97) ≡ Ok (column (replicate 24 97) []) }
{}

/// What some texts are refused with: the first rule that is broken decides, and a record's place counts from
/// the header, which is record 1.
pub fn worked_refusals()
    ensures nothing { records_read [] ≡ Err TooFew }
    ensures mark { records_read (marked []) ≡ Err TooFew }
    ensures empty_lines { records_read (codes "\n\r\n\n") ≡ Err TooFew }
    ensures no_columns { table_in ([] ∷ []) ≡ Err (Shape 1) }
    ensures end_of_table { records_read (codes "V,end\n1,2\n") ≡ Err (Shape 1) }
    ensures quoted_end { records_read (codes "\" end\"\n1\n") ≡ Err (Shape 1) }
    ensures empty_name { records_read (codes "V,\n1,2\n") ≡ Err (Shape 1) }
    ensures twice { records_read (codes "V,I, V\n") ≡ Err (Shape 1) }
    ensures nine { records_read (codes "A,B,C,D,E,F,G,H,I\n") ≡ Err (Shape 1) }
    ensures too_long { records_read (replicate 25 97) ≡ Err (Shape 1) }
    ensures qualified { records_read (codes "T.V\n1\n") ≡ Err (Shape 1) }
    ensures header_first { records_read (codes "1\nx,2\n") ≡ Err (Shape 1) }
    ensures fewer { records_read (codes "V,I\n1,2\n3\n") ≡ Err (Shape 3) }
    ensures more { records_read (codes "V\n1\n2,3\n") ≡ Err (Shape 3) }
    ensures shape_first { records_read (codes "V,I\nx\n") ≡ Err (Shape 2) }
    ensures one_by_one { records_read (codes "V,I\n1,x\n2\n") ≡ Err (NotNumber 2) }
    ensures not_number_first { records_read (codes "V,I\nx,1e999\n") ≡ Err (NotNumber 2) }
    ensures range_first { records_read (codes "V,I\n1e999,x\n") ≡ Err (NumberRange 2) }
    ensures blanks { records_read (codes "V\n1\n \t\n") ≡ Err (NotNumber 3) }
    ensures comma_in_quotes { records_read (codes "V\n\"1,2\"\n") ≡ Err (NotNumber 2) }
    ensures line_feed_in_quotes { records_read (codes "V\n\"1\n2\"\n") ≡ Err (NotNumber 2) }
    ensures no_comments { records_read (codes "V\n1 # one\n") ≡ Err (NotNumber 2) }
    ensures empty_lines_count_not { records_read (codes "\nV\n\n\n1\n\nx\n") ≡ Err (NotNumber 3) }
{}
