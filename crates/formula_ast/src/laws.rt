//! What holds of the grammar, the reading and the printed text together. Each function has an empty
//! body, and its clauses are a theorem on the definitions.

ghost use Rattle.std.specs.Prelude.{◌≡◌, ◌≢◌, ◌↔◌, ℕ, ◌≤◌, ◌⊎◌, true, pos, negsuc, List, ◌∷◌, length, take, Some, None, IsSome, Ok, Err, codes, count_by, replicate};
ghost use Rattle.std.specs.Char.{is_ascii_digit};
ghost use Rattle.line_text.specs.Blanks.{written_len};
ghost use Rattle.decimal18.specs.Literal.{literal_of};
ghost use Rattle.decimal18.specs.Bound.{scaled};
ghost use Rattle.decimal18.specs.declared.literal.NumFault.TheVariants.{NumberRange};
ghost use Rattle.formula_ast.specs.Trees.{Tree, nodes, HasExponents, Number as Literal, Variable, Opposite, Joined, Raised};
ghost use Rattle.formula_ast.specs.Tokens.{literal_len, kinds_in};
ghost use Rattle.formula_ast.specs.Grammar.{Written, IsGrammatical, spelling, Spells, SpellsText, GoesOn};
ghost use Rattle.formula_ast.specs.Machine.{Stage, stages, trees, first_stage};
ghost use Rattle.formula_ast.specs.Reading.{is_open, reading_of};
ghost use Rattle.formula_ast.specs.Printing.{print};
ghost use Rattle.formula_ast.specs.Rules.{IsReadOrRuled, IsFormula, IsFirstWrong};
ghost use Rattle.formula_ast.specs.Refusals.{nodes_in, IsFirstBroken, IsSyntax};
ghost use Rattle.formula_ast.specs.declared.fault.FormulaFault.{FormulaFault};
ghost use Rattle.formula_ast.specs.declared.fault.FormulaFault.TheVariants.{Syntax, UnknownFunction, Number, BadPower, TooDeep, OutOfMemory};
ghost use Rattle.formula_ast.specs.declared.token.Kind.{Kind};
ghost use Rattle.formula_ast.specs.declared.token.Sign.TheVariants.{Plus, Minus, Times, Over};

/// What is read as a formula spells it, what spells a formula is read as it unless a rule beyond the
/// grammar refuses it, no tokens spell two formulas, and none are written in two ways.
pub fn reading_is_the_grammars()
    ensures spelt { (text : List ℕ) (f : Tree) → reading_of text ≡ Ok f → SpellsText text f }
    ensures read { (text : List ℕ) (f : Tree) → SpellsText text f → IsReadOrRuled (reading_of text) f }
    ensures one { (ks : List Kind) (f g : Tree) → Spells ks f → Spells ks g → f ≡ g }
    ensures one_way { (a b : Written) → IsGrammatical a → IsGrammatical b → spelling a ≡ spelling b → a ≡ b }
{}

/// The tokens that the stages of the reading let pass are exactly those with which a text of the grammar
/// goes on. So a token is refused as `Syntax` exactly where no text of the grammar goes on with it.
pub fn stages_are_the_prefixes_of_the_grammar()
    ensures pass { (ks : List Kind) (s : Stage Tree) → stages trees first_stage ks ≡ Some s → GoesOn ks }
    ensures stop { (ks : List Kind) → stages trees first_stage ks ≡ None → GoesOn ks → ⊥ }
{}

/// The printed text of a formula that was read is read as the formula again, and no tokens that spell the
/// formula have fewer parentheses.
pub fn printed_text_is_read_again()
    ensures again { (text : List ℕ) (f : Tree) → reading_of text ≡ Ok f → reading_of (print f) ≡ Ok f }
    ensures fewest { (text : List ℕ) (f : Tree) → reading_of text ≡ Ok f
        → (ks : List Kind) → Spells ks f → count_by is_open (kinds_in (print f)) ≤ count_by is_open ks }
{}

/// A text is read as a formula exactly where it spells it and stays within the limits: its numbers are
/// bounds, its exponents are from 1 to 9, at most 64 parentheses and prefix minuses are open at one place,
/// and it has at most 256 nodes.
pub fn what_spells_within_limits_is_read()
    ensures { (text : List ℕ) (f : Tree) → (reading_of text ≡ Ok f) ↔ IsFormula text f }
{}

/// The place of a refusal as `Syntax`. Where a text of the grammar goes on after the whole text, it is the
/// text's length without its last blanks, and elsewhere that of the first token with which none goes on.
pub fn syntax_is_placed_at_the_first_wrong_token()
    ensures end { (text : List ℕ) (at : ℕ) → reading_of text ≡ Err (Syntax at) → GoesOn (kinds_in text) → at ≡ written_len text }
    ensures token { (text : List ℕ) (at : ℕ) → reading_of text ≡ Err (Syntax at) → (GoesOn (kinds_in text) → ⊥) → IsFirstWrong text at }
{}

/// A refusal beyond the grammar is that of the first token that breaks a rule, and comes exactly there. Where
/// that token breaks two, it is that of the rule that comes first. `counted`: the nodes of tokens, by which
/// one of the rules goes, are those of the formula that they spell.
pub fn refusals_are_of_the_first_broken_rule()
    ensures refused { (text : List ℕ) (fault : FormulaFault) → reading_of text ≡ Err fault → IsSyntax fault ⊎ IsFirstBroken text fault }
    ensures comes { (text : List ℕ) (fault : FormulaFault) → IsFirstBroken text fault → reading_of text ≡ Err fault }
    ensures counted { (ks : List Kind) (f : Tree) → Spells ks f → nodes_in ks ≡ nodes f }
{}

/// Each exponent of what was read is from -9 to 9 and not 0.
pub fn what_is_read_has_exponents()
    ensures { (text : List ℕ) (f : Tree) → reading_of text ≡ Ok f → HasExponents f }
{}

/// What a text is read as is the formula or a refusal of a token, and never out of memory.
pub fn reading_is_never_out_of_memory()
    ensures { (text : List ℕ) → reading_of text ≢ Err OutOfMemory }
{}

/// The number at the start of a text that begins with a digit is the longest literal there.
pub fn number_tokens_are_longest_literals()
    ensures literal { (byte : ℕ) (bytes : List ℕ) → is_ascii_digit byte ≡ true
        → IsSome (literal_of (take (literal_len (byte ∷ bytes)) (byte ∷ bytes))) }
    ensures longest { (byte : ℕ) (bytes : List ℕ) (n : ℕ) → is_ascii_digit byte ≡ true → n ≤ length (byte ∷ bytes)
        → IsSome (literal_of (take n (byte ∷ bytes))) → n ≤ literal_len (byte ∷ bytes) }
{}

/// What some texts are read as, and how some formulas are printed.
pub fn worked_formulas()
    ensures sign_of_power { reading_of (codes "-a^2") ≡ Ok (Opposite (Raised (Variable (codes "a")) (pos 2))) }
    ensures left_grouping { reading_of (codes "t.a-b/2*-c_1") ≡ Ok (Joined Minus (Variable (codes "t.a"))
        (Joined Times (Joined Over (Variable (codes "b")) (Literal (scaled (pos 2) 0))) (Opposite (Variable (codes "c_1"))))) }
    ensures blank { reading_of (codes "   ") ≡ Err (Syntax 0) }
    ensures cut_off { reading_of (codes "1 + 2 * ") ≡ Err (Syntax 7) }
    ensures two_numbers { reading_of (codes "2 3x") ≡ Err (Syntax 2) }
    ensures glued { reading_of (codes "2 + 3x") ≡ Err (Syntax 5) }
    ensures two_points { reading_of (codes "1.2.3") ≡ Err (Syntax 3) }
    ensures four_digits { reading_of (codes "1 + 1e1234") ≡ Err (Syntax 9) }
    ensures three_names { reading_of (codes "a.b.c(1)") ≡ Err (Syntax 0) }
    ensures function { reading_of (codes "1 - s (1)") ≡ Err (UnknownFunction 4) }
    ensures out_of_range { reading_of (codes "1e999") ≡ Err (Number NumberRange 0) }
    ensures power_with_point { reading_of (codes "2^1.0") ≡ Err (BadPower 2) }
    ensures power_of_zero { reading_of (codes "2^-0") ≡ Err (BadPower 3) }
    ensures power_out_of_range { reading_of (codes "2^1e999") ≡ Err (BadPower 2) }
    ensures deep { reading_of (replicate 65 40) ≡ Err (TooDeep 64) }
    ensures printed { print (Joined Minus (Variable (codes "a")) (Joined Plus (Opposite (Literal (scaled (pos 125) 2)))
        (Raised (Joined Times (Variable (codes "b")) (Variable (codes "c"))) (negsuc 1)))) ≡ codes "a - (-1.25 + (b * c)^-2)" }
{}
