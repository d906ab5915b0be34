//! Laws of generated scripts. Each function has an empty body, and its clauses are theorems on the definitions.

ghost use Rattle.std.specs.Prelude.{◌≡◌, ℕ, ◌*◌, ◌^◌, ◌<◌, codes};
ghost use Rattle.script_maker.specs.Draws.{next, drawn, state_after};
ghost use Rattle.script_maker.specs.Scripts.{input_count, row_lines, rounds, script};

/// What is drawn is below the number that was asked for, and each state but perhaps the first is below 2^31.
pub fn draws_are_below()
    ensures drawn { (state m : ℕ) → 0 < m → drawn state m < m }
    ensures state { (state : ℕ) → next state < 2 ^ 31 }
{}

/// The first states after 0, and what is drawn there; the state after the greatest one.
pub fn worked_draws()
    ensures first { next 0 ≡ 12345 }
    ensures second { next 12345 ≡ 1406932606 }
    ensures after_two { state_after 2 0 ≡ 1406932606 }
    ensures nothing { drawn 0 900 ≡ 0 }
    ensures number { drawn 12345 9 ≡ 3 }
    ensures greatest { next 2147483647 ≡ 1043980748 }
{}

/// How many rows are inputs; the first rows of greater scripts; the first rounds of one of twelve rows.
pub fn worked_rows()
    ensures least { input_count 2 ≡ 1 }
    ensures cut_off { input_count 11 ≡ 2 }
    ensures most { input_count 4096 ≡ 1024 }
    ensures inputs { row_lines (input_count 4096) 2147483647 2
        ≡ codes "given X1 729 std 9\ngiven X2 962 std 7\n" }
    ensures rows { row_lines (input_count 12) 7 6
        ≡ codes "given X1 764 std 6\ngiven X2 168 std 4\ngiven X3 231 std 9\nlet Y4 = (X1 + X3) / 2\nlet Y5 = (X2 + X2) / 2\nlet Y6 = (Y4 + Y4) / 2\n" }
    ensures rounds { rounds (input_count 12) 12 (state_after (2 * 12) 7) 2
        ≡ codes "set given X2 1001 std 1\nvalue Y12\nundo\nvalue Y12\nset given X3 1002 std 1\nvalue Y12\nundo\nvalue Y12\n" }
{}

/// The script of two rows whose draws begin at 0.
pub fn worked_script()
    ensures { script 2 0
        ≡ codes "given X1 100 std 4\nlet Y2 = (X1 + X1) / 2\nvalue Y2\nset given X1 1001 std 1\nvalue Y2\nundo\nvalue Y2\nset given X1 1002 std 1\nvalue Y2\nundo\nvalue Y2\nset given X1 1003 std 1\nvalue Y2\nundo\nvalue Y2\nset given X1 1004 std 1\nvalue Y2\nundo\nvalue Y2\nset given X1 1005 std 1\nvalue Y2\nundo\nvalue Y2\nset given X1 1006 std 1\nvalue Y2\nundo\nvalue Y2\nset given X1 1007 std 1\nvalue Y2\nundo\nvalue Y2\nset given X1 1008 std 1\nvalue Y2\nundo\nvalue Y2\nset given X1 1009 std 1\nvalue Y2\nundo\nvalue Y2\nset given X1 1010 std 1\nvalue Y2\nundo\nvalue Y2\nset given X1 1011 std 1\nvalue Y2\nundo\nvalue Y2\nset given X1 1012 std 1\nvalue Y2\nundo\nvalue Y2\nset given X1 1013 std 1\nvalue Y2\nundo\nvalue Y2\nset given X1 1014 std 1\nvalue Y2\nundo\nvalue Y2\nset given X1 1015 std 1\nvalue Y2\nundo\nvalue Y2\nset given X1 1016 std 1\nvalue Y2\nundo\nvalue Y2\nreport Y2\n" }
{}
