//! Worked scripts, as laws of the definitions: each reads off what is written for it.

ghost use Rattle.std.specs.Prelude.{◌≡◌, [], codes};
ghost use Rattle.gum_cli.specs.Script.{out, early};

/// Scripts that are accepted throughout. A last line may lack its line feed, and then it is due only
/// at the end of the script.
pub fn worked_values()
    ensures empty { out (codes "") ≡ [] }
    ensures first { out (codes "given X 5 std 1\nlet Y = X + 2\nvalue Y\n") ≡ codes "ok\nok\nvalue Y 7 7\n" }
    ensures blank_lines { out (codes "\n \t\n# ohm\n  given\tX 5  std 1 # ohm\nvalue X") ≡ codes "ok\nvalue X 5 5\n" }
    ensures returned { out (codes "given X 5 std 1 # ohm\r\n\r\nvalue X") ≡ codes "ok\nvalue X 5 5\n" }
    ensures early { early (codes "given X 5 std 1\nvalue X") ≡ codes "ok\n" }
    ensures third { out (codes "let T = 1/3\nvalue T\n") ≡ codes "ok\nvalue T 0.333333333333333333 0.333333333333333334\n" }
    ensures tight { out (codes "given X 2.5e0 std 0\nlet Y=-(X+1)*X^2-X/4\nvalue Y") ≡ codes "ok\nok\nvalue Y -22.5 -22.5\n" }
    ensures powers { out (codes "let P = (-2)^3\nvalue P\nlet Q = 10^9 * 10^9\nvalue Q\nlet N = 2^0\n")
        ≡ codes "ok\nvalue P -8 -8\nok\nfault overflow Q\nrefused bad_power 11\n" }
{}

/// Lines that are no command, each with the reason and its place.
pub fn worked_refusals()
    ensures number_range { out (codes "given X 1234567890123456789 exact\n") ≡ codes "refused number_range 9\n" }
    ensures unknown_function { out (codes "let Y = sin(1)\n") ≡ codes "refused unknown_function 9\n" }
    ensures syntax { out (codes "given X\nvalue X\r\r\n") ≡ codes "refused syntax 8\nrefused syntax 7\n" }
    ensures not_number { out (codes "given X 5. std 1\n") ≡ codes "refused not_number 9\n" }
    ensures rules { out (codes "tol G upper 1 guard 4\ntol G lower 2 upper 1 guard 4\ntol G lower 2 upper 1 guard 0.0005\ntol G lower 2 upper 1 guard -0\ntol G guard 1\ntol G upper 1 guard -1 four\ntol G upper 1 guard 3.001\ntol G upper 1 guard 3.000 four\ntol G upper 1\nbudget X\n")
        ≡ codes "refused guard_range\nrefused guard_range\nrefused guard_range\nrefused limit_order\nrefused syntax 7\nrefused guard_range\nrefused guard_range\nok\nrefused syntax 14\nrefused no_such_result X\n" }
    ensures block { out (codes "set table T\r\nA # ohm\nundo\n end\r\nundo\n") ≡ codes "refused shape 1\nrefused nothing_to_undo\n" }
    ensures open_table { out (codes "undo\ntable T\nA\nundo\n") ≡ codes "refused nothing_to_undo\nrefused open_table\n" }
    ensures early_block { early (codes "undo\ntable T\nA\nend") ≡ codes "refused nothing_to_undo\n" }
    ensures negative { out (codes "given X 5 std -1\n") ≡ codes "refused negative\n" }
    ensures shapes { out (codes "given X 1 exp 1 0\ngiven X 1 trap 1 1.1\ngiven X 1 norm 2 50\n")
        ≡ codes "refused zero_k\nrefused beta\nrefused level\n" }
    ensures degrees { out (codes "given X 1 exact rel 71\ngiven X 1 norm 2 dof 5\n") ≡ codes "refused dof_range\nrefused syntax 22\n" }
{}

/// Joint readings: the voltages and the currents of JCGM 100:2008, Table H.2, with the resistance that is their
/// quotient; how a table is dumped, refused and used.
pub fn worked_tables()
    ensures means { out (codes "table T\nV,I\n5.007,19.663\n4.994,19.639\n5.005,19.640\n4.990,19.685\n4.999,19.678\nend\nlet R = 1000*T.V/T.I\nvalue T.V\nvalue T.I\nvalue R\n")
        ≡ codes "ok\nok\nvalue T.V 4.999 4.999\nvalue T.I 19.661 19.661\nvalue R 254.25970194801892 254.259701948018921\n" }
    ensures dumped { out (codes "table T # two\r\n\"A\", B\r\n1.50,2e0\n\n3 ,4\n end\ndump\n") ≡ codes "ok\ntable T\nA,B\n1.5,2\n3,4\nend\nok\n" }
    ensures refused { out (codes "table T\nV,I\n1,2\n3\nend\ntable T\nV\n1\n1000000000\nend\ntable T.V\nV\nend\n")
        ≡ codes "refused shape 3\nrefused wide 3\nrefused syntax 7\n" }
    ensures used { out (codes "table T\nA,B\n1,2\n3,4\nend\nlet Y = T.B\nset table T\nA\n1\n2\nend\nremove T\nvalue T\nset table T\nB\n5\n6\nend\nvalue Y\nvalue T.A\n")
        ≡ codes "ok\nok\nrefused in_use Y\nrefused in_use Y\nrefused no_such_result T\nok\nvalue Y 5.5 5.5\nrefused no_such_result T.A\n" }
{}

/// Readings, whose value is their mean, and correlations.
pub fn worked_inputs()
    ensures mean { out (codes "readings R 1 1 1 1 1 1 1 1 1 1 2\nlet S = R - 1\nvalue R\nvalue S\n")
        ≡ codes "ok\nok\nvalue R 1.0909090909090909 1.09090909090909091\nvalue S 0.0909090909090909 0.09090909090909091\n" }
    ensures readings { out (codes "readings R 1\nreadings R 1000000000 1\nset readings R 1 2\n")
        ≡ codes "refused too_few\nrefused wide 1\nrefused unknown R\n" }
    ensures edits { out (codes "let A = A + 1\nlet A = B\ngiven A 1 rect 1\ngiven B 1 std 1\ncorr P A B 0.5\ngiven C 1 std 1\ncorr P B C 0.5\ngiven D 1 std 1\ncorr Q D C 0\nset given C 1 std 1 dof 5\ngiven B 2 exact\nvalue P\n")
        ≡ codes "refused not_earlier A\nrefused unknown B\nok\nok\nrefused not_correlatable A\nok\nok\nok\nrefused already_correlated C\nrefused in_use P\nrefused duplicate B\nrefused no_such_result P\n" }
    ensures coefficient { out (codes "given A 1 std 1\ngiven B 1 norm 1 95\ncorr P A B -1.01\ncorr P A A 1\ncorr P A B -1\nremove A\nremove P\nremove A\n")
        ≡ codes "ok\nok\nrefused r_range\nrefused not_correlatable A\nok\nrefused in_use P\nok\nok\n" }
{}

/// Sensitivities: through a row that another uses too, of a quotient that no decimal number is, of an input to
/// itself and of a quantity that does not depend on the input; a sensitivity out of range where the value is in
/// range, also to another quantity than the one that is asked for; and the names that are refused.
pub fn worked_sensitivities()
    ensures shared { out (codes "given X 3 std 1\nlet A = X*X\nlet B = A*X\nsens B X\nsens X X\n")
        ≡ codes "ok\nok\nok\nsens B X 27 27\nsens X X 1 1\n" }
    ensures third { out (codes "given X 1 exact\nlet T = X/3\nsens T X\n")
        ≡ codes "ok\nok\nsens T X 0.333333333333333333 0.333333333333333334\n" }
    ensures overflow { out (codes "given X 0.001 exact\nlet Y = X/1e-20\nvalue Y\nsens Y X\n")
        ≡ codes "ok\nok\nvalue Y 100000000000000000 100000000000000000\nfault law_overflow\n" }
    ensures elsewhere { out (codes "given X 0.001 exact\ngiven Z 2 exact\nlet Y = X/1e-20 + Z\nsens Y Z\nsens X Z\n")
        ≡ codes "ok\nok\nok\nfault law_overflow\nsens X Z 0 0\n" }
    ensures value_fault { out (codes "given X 5 std 1\nlet Z = 1/(X-5)\nlet Y = Z*X\nsens Y X\n")
        ≡ codes "ok\nok\nok\nfault zero_divisor Z\n" }
    ensures names { out (codes "given X 5 std 1\nlet Y = X\nsens Z W\nsens Y Z\nsens Y Y\nat M sens Y X\n")
        ≡ codes "ok\nok\nrefused no_such_result Z\nrefused no_such_result Z\nrefused no_such_result Y\nrefused no_mark M\n" }
{}

/// Variances, covariances and correlation coefficients: of quantities that share an input and are correlated by that
/// alone, so that what it brings to their difference cancels; of two without a common input, and with one that has no
/// uncertainty; of a declared coefficient; of the voltages and currents of JCGM 100:2008, Table H.2; a law out of range
/// where the value is in range; and the order of refusals and faults.
pub fn worked_variances()
    ensures cancel { out (codes "given X 5 std 1\nlet A = X*2\nlet B = X*3\nlet C = B - A - X\nvar C\ncov A B\nr A B\n")
        ≡ codes "ok\nok\nok\nok\nvar C 0 0\ncov A B 6 6\nr A B 1.00\n" }
    ensures apart { out (codes "given X 5 std 1\ngiven Y 7 std 1\ngiven Z 1 exact\ncov X Y\nr X Y\nr X Z\n")
        ≡ codes "ok\nok\nok\ncov X Y 0 0\nr X Y 0.00\nr X Z none\n" }
    ensures declared { out (codes "given A 1 std 1\ngiven B 2 std 2\ncorr P A B -0.5\nlet S = A + B\nvar S\nvar A\ncov A S\nr A B\n")
        ≡ codes "ok\nok\nok\nok\nvar S 3 3\nvar A 1 1\ncov A S 0 0\nr A B -0.50\n" }
    ensures table { out (codes "table T\nV,I\n5.007,19.663\n4.994,19.639\n5.005,19.640\n4.990,19.685\n4.999,19.678\nend\nvar T.V\ncov T.V T.I\nr T.V T.I\n")
        ≡ codes "ok\nvar T.V 0.0000103 0.0000103\ncov T.V T.I -0.0000108 -0.0000108\nr T.V T.I -0.36\n" }
    ensures overflow { out (codes "given X 1000000000 std 1000000000\nvalue X\nvar X\n")
        ≡ codes "ok\nvalue X 1000000000 1000000000\nfault law_overflow\n" }
    ensures faults { out (codes "given X 5 std 1\nlet Z = 1/(X-5)\nlet Y = 1/(5-X)\ncov Y Z\ncov X Z\ncov W Z\nr X W\nat M var X\n")
        ≡ codes "ok\nok\nok\nfault zero_divisor Y\nfault zero_divisor Z\nrefused no_such_result W\nrefused no_such_result W\nrefused no_mark M\n" }
{}

/// Degrees of freedom and reports: of eleven readings; of sums of inputs with degrees of freedom; of an input whose
/// uncertainty is itself uncertain by 25 percent; an uncertainty that is rounded to 100; two inputs that are fully
/// correlated; the impedance of JCGM 100:2008, H.2; spans that settle nothing; and the levels that are read.
pub fn worked_reports()
    ensures readings { out (codes "readings R 1 1 1 1 1 1 1 1 1 1 2\ndof R\nreport R\nexpanded R 95\n")
        ≡ codes "ok\ndof R 10\nreport R 1.091 u 0.091\nexpanded R 1.09 U 0.20 k 2.23\n" }
    ensures degrees { out (codes "given A 1 std 1 dof 5\ngiven B 1 std 2 dof 10\nlet S = A + B\ndof S\ngiven G 10 std 1 rel 25\ndof G\ngiven X 1 exact\ndof X\ngiven Y 1 std 1\ndof Y\n")
        ≡ codes "ok\nok\nok\ndof S 13\nok\ndof G 8\nok\ndof X none\nok\ndof Y inf\n" }
    ensures equal_degrees { out (codes "given A 1 std 1 dof 5\ngiven B 1 std 1 dof 5\nlet S = A + B\ndof S\n")
        ≡ codes "ok\nok\nok\ndof S 10\n" }
    ensures calibration { out (codes "given S 100 exp 0.050 2 # certificate\nreadings D 0.012 0.010 0.011 0.013 0.009\ngiven R 0 rect 0.005\nlet M = S + D + R\nreport M\ndof M\nexpanded M 95\n")
        ≡ codes "ok\nok\nok\nok\nreport M 100.011 u 0.025\ndof M 6427915\nexpanded M 100.011 U 0.050 k 1.984\n" }
    ensures hundred { out (codes "given X 5 std 0.995\nreport X\nexpanded X 95.45\n")
        ≡ codes "ok\nreport X 5.0 u 1.0\nexpanded X 5.0 U 2.0 k 2\n" }
    ensures correlated { out (codes "given A 1 std 1\ngiven B 2 std 1\ncorr P A B -1\nlet S = A + B\nreport S\ndof S\nexpanded S 95\n")
        ≡ codes "ok\nok\nok\nok\nreport S 3 u 0\ndof S none\nexpanded S 3 U 0 k 1.96\n" }
    ensures impedance { out (codes "table T\nV,I\n5.007,19.663\n4.994,19.639\n5.005,19.640\n4.990,19.685\n4.999,19.678\nend\nlet Z = 1000*T.V/T.I\nreport Z\ndof Z\nexpanded Z 95\n")
        ≡ codes "ok\nok\nreport Z 254.26 u 0.24\ndof Z 4\nexpanded Z 254.26 U 0.66 k 2.78\n" }
    ensures unsettled { out (codes "given X 1 exact\nlet T = X/3\nreport T\nexpanded T 99\n")
        ≡ codes "ok\nok\nreport T undecided\nexpanded T undecided\n" }
    ensures levels { out (codes "given X 1 std 1\nexpanded X 95.0\nexpanded X\nexpanded X 95 1\nexpanded W 95\nexpanded X 99\n")
        ≡ codes "ok\nrefused level\nrefused syntax 11\nrefused syntax 15\nrefused no_such_result W\nexpanded X 1.0 U 2.6 k 2.576\n" }
{}

/// Statements of conformity (ILAC-G8:09/2019, 4.2.2, 4.2.3): on the voltages and currents of JCGM 100:2008, Table H.2, where
/// the guard band is 1, 1.5 and 1.125 expanded uncertainties, and the rounded uncertainty of 0.66 would turn the last one; on a
/// usual calibration; each statement of a rule with four outcomes, and both of one with two; a value on the limit; each
/// condition that intervals do not settle; and the order of refusals and faults. Rules are set, undone and printed.
pub fn worked_decisions()
    ensures impedance { out (codes "table T\nV,I\n5.007,19.663\n4.994,19.639\n5.005,19.640\n4.990,19.685\n4.999,19.678\nend\nlet Z = 1000*T.V/T.I\ntol G upper 255 guard 1\ndecide Z G 95\ntol H upper 255 guard 1.5 four\ndecide Z H 95\ntol K upper 255 guard 1.125\ndecide Z K 95\n")
        ≡ codes "ok\nok\nok\ndecide Z G Pass\nok\ndecide Z H ConditionalPass\nok\ndecide Z K Pass\n" }
    ensures calibration { out (codes "given S 100 exp 0.050 2 # certificate\nreadings D 0.012 0.010 0.011 0.013 0.009\ngiven R 0 rect 0.005\nlet M = S + D + R\ntol W lower 99.9 upper 100.1 guard 1\ndecide M W 95\n")
        ≡ codes "ok\nok\nok\nok\nok\ndecide M W Pass\n" }
    ensures four_outcomes { out (codes "given Y 10 std 1\ntol A upper 12 guard 1 four\ntol B upper 11 guard 1 four\ntol C upper 9 guard 1 four\ntol D upper 8 guard 1 four\ndecide Y A 95\ndecide Y B 95\ndecide Y C 95\ndecide Y D 95\n")
        ≡ codes "ok\nok\nok\nok\nok\ndecide Y A Pass\ndecide Y B ConditionalPass\ndecide Y C ConditionalFail\ndecide Y D Fail\n" }
    ensures two_outcomes { out (codes "given Y 10 std 1\ntol A lower 9 upper 20 guard 1\ntol B lower 8 upper 12 guard 1\ndecide Y A 95\ndecide Y B 95\n")
        ≡ codes "ok\nok\nok\ndecide Y A Fail\ndecide Y B Pass\n" }
    ensures on_the_limit { out (codes "given Y 10 exact\ntol T upper 10 guard 0\ndecide Y T 95\n")
        ≡ codes "ok\nok\ndecide Y T Pass\n" }
    ensures unsettled { out (codes "given X 1 exact\nlet Y = X/3\ntol T upper 0.333333333333333333 guard 0\ndecide Y T 95\nset given X 1 std 1\nset tol T upper 0.333333333333333333 guard 1 four\ndecide Y T 95\nset given X 3 std 3\nset tol T upper -0.96 guard 1 four\ndecide Y T 95\n")
        ≡ codes "ok\nok\nok\ndecide Y T Undecided 1\nok\nok\ndecide Y T Undecided 2\nok\nok\ndecide Y T Undecided 3\n" }
    ensures faults { out (codes "given X 5 std 1\ndecide X T 95\ntol T upper 1 guard 1\ndecide W T 95\ndecide X X 95\nlet Z = 1/(X-5)\ndecide Z T 95\nat M decide X T 95\nset given X 1000000000 std 1000000000\ndecide X T 95\n")
        ≡ codes "ok\nrefused no_such_result T\nok\nrefused no_such_result W\nrefused no_such_result X\nok\nfault zero_divisor Z\nrefused no_mark M\nok\nfault law_overflow\n" }
    ensures rows { out (codes "tol T lower -1.50 upper 2 guard 0.500 four # ohm\nset tol T upper 2 guard 3\nundo\ndump\nremove T\ndump\n")
        ≡ codes "ok\nok\nok\ntol T lower -1.5 upper 2 guard 0.5 four\nok\nok\nok\n" }
{}

/// Budgets (JCGM 100:2008, 5.1.3): of a quantity with one input, and of the input itself; of one without inputs; of a pair of
/// correlated inputs of which one or both count; of a column of joint readings; and where the law leaves the range of numbers,
/// or the value is a fault.
pub fn worked_budgets()
    ensures first { out (codes "given X 5 std 1\nlet Y = X + 2\nbudget Y\nbudget X\n")
        ≡ codes "ok\nok\ninput X value 5 5 var 1 1 sens 1 1 own 1 1\ngroup X 1 1\nbudget Y 1 1\ninput X value 5 5 var 1 1 sens 1 1 own 1 1\ngroup X 1 1\nbudget X 1 1\n" }
    ensures none { out (codes "let T = 1/2\nbudget T\n")
        ≡ codes "ok\nbudget T 0 0\n" }
    ensures pair { out (codes "given A 1 std 1\ngiven B 2 std 2\ncorr P A B 0.5\nlet S = 2*A\nbudget S\nlet D = A - B\nbudget D\n")
        ≡ codes "ok\nok\nok\nok\ninput A value 1 1 var 1 1 sens 2 2 own 4 4\ngroup P 4 4\nbudget S 4 4\nok\ninput A value 1 1 var 1 1 sens 1 1 own 1 1\ninput B value 2 2 var 4 4 sens -1 -1 own 4 4\ngroup P 3 3\nbudget D 3 3\n" }
    ensures table { out (codes "given X 5 std 1\ntable Q\nV,I\n1,2\n3,6\nend\nlet R = Q.I - X\nbudget R\nbudget Q.V\nbudget Q\n")
        ≡ codes "ok\nok\nok\ninput X value 5 5 var 1 1 sens -1 -1 own 1 1\ninput Q.I value 4 4 var 4 4 sens 1 1 own 4 4\ngroup X 1 1\ngroup Q 4 4\nbudget R 5 5\ninput Q.V value 2 2 var 1 1 sens 1 1 own 1 1\ngroup Q 1 1\nbudget Q.V 1 1\nrefused no_such_result Q\n" }
    ensures faults { out (codes "given X 1 std 1000000000\nlet Z = 1/(X-1)\nbudget X\nbudget Z\n")
        ≡ codes "ok\nok\nfault law_overflow\nfault zero_divisor Z\n" }
{}

/// Commands that are refused, and the order of two reasons that both apply. The sheet stays as it was.
pub fn worked_verdicts()
    ensures duplicate { out (codes "given X 5 std 1\ngiven X 6 std 1\ndump\n")
        ≡ codes "ok\nrefused duplicate X\ngiven X 5 std 1\nok\n" }
    ensures duplicate_first { out (codes "given X 5 std 1\nlet X = Y\n") ≡ codes "ok\nrefused duplicate X\n" }
    ensures unknown { out (codes "let Y = 1 + X * Z\nset let Y = 1\nremove Y\n")
        ≡ codes "refused unknown X\nrefused unknown Y\nrefused unknown Y\n" }
    ensures not_earlier { out (codes "let A = A + 1\nlet A = 1\nlet B = A\nset let A = B\n")
        ≡ codes "refused not_earlier A\nok\nok\nrefused not_earlier B\n" }
    ensures in_use { out (codes "given X 5 std 1\nlet Y = X\nremove X\n") ≡ codes "ok\nok\nrefused in_use Y\n" }
    ensures nothing { out (codes "undo\nredo\nrestore M\nat M dump\n")
        ≡ codes "refused nothing_to_undo\nrefused nothing_to_redo\nrefused no_mark M\nrefused no_mark M\n" }
    ensures no_such_result { out (codes "value X\nvalue T.V\n")
        ≡ codes "refused no_such_result X\nrefused no_such_result T.V\n" }
{}

/// A row that another uses changes; steps go back and forward; a mark keeps its sheet.
pub fn worked_edits()
    ensures zero_divisor { out (codes "given X 5 std 1\nlet Z = 1/(X-5)\nvalue Z\nset given X 6 std 1\nvalue Z\nset let Z = 2^3\nremove X\nvalue Z\n")
        ≡ codes "ok\nok\nfault zero_divisor Z\nok\nvalue Z 1 1\nok\nok\nvalue Z 8 8\n" }
    ensures undo_order { out (codes "given X 5 std 1\nlet Y = X+2\ngiven Z 1 exact\nremove X\nremove Y\nundo\ndump\nundo\nundo\nundo\nundo\n")
        ≡ codes "ok\nok\nok\nrefused in_use Y\nok\nok\ngiven X 5 std 1\nlet Y = X + 2\ngiven Z 1 exact\nok\nok\nok\nok\nrefused nothing_to_undo\n" }
    ensures marks { out (codes "given X 5 std 1\nmark A\nset given X 6 std 1\nvalue X\nat A value X\nrestore A\nvalue X\nundo\nvalue X\nredo\nvalue X\nredo\nrestore B\n")
        ≡ codes "ok\nok\nok\nvalue X 6 6\nvalue X 5 5\nok\nvalue X 5 5\nok\nvalue X 6 6\nok\nvalue X 5 5\nrefused nothing_to_redo\nrefused no_mark B\n" }
{}

/// A result out of range and a divisor that may be 0 are faults of the row in which they arose, in each row
/// that uses it.
pub fn worked_faults()
    ensures overflow { out (codes "let T = 999999999999999999 + 1\nvalue T\nlet U = 999999999999999998 + 1\nvalue U\n")
        ≡ codes "ok\nfault overflow T\nok\nvalue U 999999999999999999 999999999999999999\n" }
    ensures kept { out (codes "let T = 999999999999999999 + 1\nlet U = T + 1\nvalue U\n")
        ≡ codes "ok\nok\nfault overflow T\n" }
    ensures leftmost { out (codes "let T = 1/0\nlet V = 999999999999999999 + 1 + T\nvalue V\nlet W = T - 1/0\nvalue W\n")
        ≡ codes "ok\nok\nfault overflow V\nok\nfault zero_divisor T\n" }
    ensures tiny { out (codes "let U = 1e-36 / 2\nvalue U\nlet W = 1/U\nvalue W\n")
        ≡ codes "ok\nvalue U 0 0.000000000000000000000000000000000001\nok\nfault zero_divisor W\n" }
{}
