//! Worked words. Each function has an empty body, and its clauses are theorems on the definitions.

ghost use Rattle.std.specs.Prelude.{◌≡◌, ◌∷◌, [], codes, None, Some};
ghost use Rattle.program_words.specs.declared.asked.Asked.TheVariants.{Run, Make};
ghost use Rattle.program_words.specs.Numbers.{number_of};
ghost use Rattle.program_words.specs.Words.{asked_of};

/// Words that are accepted: `run`, and `make` with its options in both spellings and orders.
pub fn worked_makings()
    ensures run { asked_of (codes "gumtree" ∷ codes "run" ∷ []) ≡ Some Run }
    ensures two_words { asked_of (codes "gumtree" ∷ codes "make" ∷ codes "--rows" ∷ codes "2" ∷ codes "--start" ∷ codes "0" ∷ []) ≡ Some (Make 2 0) }
    ensures one_word { asked_of (codes "" ∷ codes "make" ∷ codes "--start=0" ∷ codes "--rows=2" ∷ []) ≡ Some (Make 2 0) }
    ensures mixed { asked_of (codes "g" ∷ codes "make" ∷ codes "--rows=0002" ∷ codes "--start" ∷ codes "0000000000" ∷ []) ≡ Some (Make 2 0) }
    ensures most { asked_of (codes "g" ∷ codes "make" ∷ codes "--start" ∷ codes "2147483647" ∷ codes "--rows=4096" ∷ []) ≡ Some (Make 4096 2147483647) }
{}

/// Words that are not: none, others, words too many or too few, an option twice, forms of help, and numbers out of range.
pub fn worked_refusals()
    ensures none { asked_of [] ≡ None }
    ensures name_alone { asked_of (codes "gumtree" ∷ []) ≡ None }
    ensures empty { asked_of (codes "gumtree" ∷ codes "" ∷ []) ≡ None }
    ensures capitals { asked_of (codes "gumtree" ∷ codes "RUN" ∷ []) ≡ None }
    ensures run_and_more { asked_of (codes "gumtree" ∷ codes "run" ∷ codes "x" ∷ []) ≡ None }
    ensures dashes { asked_of (codes "gumtree" ∷ codes "run" ∷ codes "--" ∷ []) ≡ None }
    ensures dashes_first { asked_of (codes "gumtree" ∷ codes "--" ∷ codes "run" ∷ []) ≡ None }
    ensures dashes_between { asked_of (codes "gumtree" ∷ codes "make" ∷ codes "--rows=2" ∷ codes "--" ∷ codes "--start=0" ∷ []) ≡ None }
    ensures help { asked_of (codes "gumtree" ∷ codes "help" ∷ []) ≡ None }
    ensures help_flag { asked_of (codes "gumtree" ∷ codes "--help" ∷ []) ≡ None }
    ensures help_of_make { asked_of (codes "gumtree" ∷ codes "make" ∷ codes "--help" ∷ []) ≡ None }
    ensures version { asked_of (codes "gumtree" ∷ codes "--version" ∷ []) ≡ None }
    ensures make_alone { asked_of (codes "gumtree" ∷ codes "make" ∷ []) ≡ None }
    ensures one_option { asked_of (codes "gumtree" ∷ codes "make" ∷ codes "--rows" ∷ codes "2" ∷ []) ≡ None }
    ensures twice { asked_of (codes "gumtree" ∷ codes "make" ∷ codes "--rows" ∷ codes "2" ∷ codes "--rows=2" ∷ codes "--start" ∷ codes "0" ∷ []) ≡ None }
    ensures more { asked_of (codes "gumtree" ∷ codes "make" ∷ codes "--rows=2" ∷ codes "--start=0" ∷ codes "extra" ∷ []) ≡ None }
    ensures short_name { asked_of (codes "gumtree" ∷ codes "make" ∷ codes "--row=2" ∷ codes "--start=0" ∷ []) ≡ None }
    ensures few_rows { asked_of (codes "gumtree" ∷ codes "make" ∷ codes "--rows=1" ∷ codes "--start=0" ∷ []) ≡ None }
    ensures many_rows { asked_of (codes "gumtree" ∷ codes "make" ∷ codes "--rows=4097" ∷ codes "--start=0" ∷ []) ≡ None }
    ensures great_start { asked_of (codes "gumtree" ∷ codes "make" ∷ codes "--rows=2" ∷ codes "--start=2147483648" ∷ []) ≡ None }
{}

/// Numbers: leading zeros count as digits, and there are neither signs nor an empty number.
pub fn worked_numbers()
    ensures zeros { number_of 4 2 4096 (codes "0002") ≡ Some 2 }
    ensures long { number_of 4 2 4096 (codes "00002") ≡ None }
    ensures sign { number_of 4 2 4096 (codes "+2") ≡ None }
    ensures minus { number_of 10 0 2147483647 (codes "-0") ≡ None }
    ensures empty { number_of 10 0 2147483647 [] ≡ None }
    ensures least { number_of 4 2 4096 (codes "1") ≡ None }
{}
