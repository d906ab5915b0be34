//! Whole runs: worked scripts in pieces, and each way in which a run can end.

ghost use Rattle.std.specs.Prelude.{◌≡◌, ◌≤◌, ◌^◌, ◌∷◌, [], map, codes, string_bytes, IfOk};
ghost use Rattle.gum_cli.specs.Run.{RoomForReplies};

use crate::run::{Status, run};
use byte_io::{MemorySink, MemorySource, Sink, Source, StdSink, StdSource};
use fixed_interval::Steps;
use std::io;
use std::io::{Read, Write};
use std::marker::Brand;
use std::sync::ledger::{Blank, Ledger};
use std::test::Fail;

const FIRST: &[u8; 38] = b"given X 5 std 1\nlet Y = X + 2\nvalue Y\n";

const FIRST_REPLIES: &[u8; 18] = b"ok\nok\nvalue Y 7 7\n";

// Some rows and a mark, and what a dump of them prints.
const SHEET: &[u8; 158] =
    b"given X 5 std 1\nlet Y = X + 2\ngiven x 1 exact\ngiven A 1 std 1\ngiven B 2 exp 1 2\ncorr P A B -0.5\nreadings R 1 2.5\ntable T\nA,B\n1,2.5\n3,4\nend\nlet W = T.B\nmark M\n";

const DUMP: &[u8; 154] =
    b"given X 5 std 1\nlet Y = X + 2\ngiven x 1 exact\ngiven A 1 std 1\ngiven B 2 exp 1 2\ncorr P A B -0.5\nreadings R 1 2.5\ntable T\nA,B\n1,2.5\n3,4\nend\nlet W = T.B\nok\n";

// What is replied to these lines.
const MADE: &[u8; 30] = b"ok\nok\nok\nok\nok\nok\nok\nok\nok\nok\n";

// Lines that are refused on this sheet as they stand, and why.
const REFUSED_LINES: [(&str, &str); 32] = [
    ("let Z = X +", "syntax 12"),
    ("mark X.Y", "syntax 6"),
    ("given Z 5. std 1", "not_number 9"),
    ("given Z 1e999 exact", "number_range 9"),
    ("let Z = f(X)", "unknown_function 9"),
    ("let Z = X^10", "bad_power 11"),
    (
        "let Z = (((((((((((((((((((((((((((((((((((((((((((((((((((((((((((((((((",
        "too_deep 73",
    ),
    (
        "let Z = 1+1+1+1+1+1+1+1+1+1+1+1+1+1+1+1+1+1+1+1+1+1+1+1+1+1+1+1+1+1+1+1+1+1+1+1+1+1+1+1+1+1+1+1+1+1+1+1+1+1+1+1+1+1+1+1+1+1+1+1+1+1+1+1+1+1+1+1+1+1+1+1+1+1+1+1+1+1+1+1+1+1+1+1+1+1+1+1+1+1+1+1+1+1+1+1+1+1+1+1+1+1+1+1+1+1+1+1+1+1+1+1+1+1+1+1+1+1+1+1+1+1+1+1+1+1+1+1+1",
        "too_many_nodes 265",
    ),
    ("given Z 1 std -1", "negative"),
    ("given Z 1 exp -1 0", "negative"),
    ("given Z 1 exp 1 0", "zero_k"),
    ("given Z 1 trap 1 -0.1", "beta"),
    ("given Z 1 trap 1 1.1", "beta"),
    ("given Z 1 norm 2 50", "level"),
    ("given Z 1 norm 2 dof 5", "syntax 22"),
    ("given Z 1 std 1 dof 0", "dof_range"),
    ("given Z 1 std 1 dof 1000001", "dof_range"),
    ("given Z 1 std 1 rel 0", "dof_range"),
    ("given Z 1 std 1 rel 71", "dof_range"),
    ("set given X 1 exp 1 0", "zero_k"),
    ("readings Z", "too_few"),
    ("readings Z 1", "too_few"),
    ("readings Z 1000000000 1", "wide 1"),
    ("readings Z 9 1 1e-15", "wide 1"),
    ("readings Z 1 2 x", "not_number 16"),
    ("corr Q A 2 0", "syntax 10"),
    ("corr Q X x 1.01", "r_range"),
    ("corr Q X x -1.01", "r_range"),
    ("tol Z upper 1 guard 3.001", "guard_range"),
    ("tol Z lower 2 upper 1 guard 1", "limit_order"),
    ("expanded X 95.0", "level"),
    ("value X\r\r", "syntax 7"),
];

// Commands that are refused on this sheet, and why.
const REFUSED_COMMANDS: [(&str, &str); 35] = [
    ("given X 1 exact", "duplicate X"),
    ("let x = Q", "duplicate x"),
    ("let Z = Q * R", "unknown Q"),
    ("set let Q = 1", "unknown Q"),
    ("remove y", "unknown y"),
    ("let Z = Z", "not_earlier Z"),
    ("set let Y = x", "not_earlier x"),
    ("remove X", "in_use Y"),
    ("let Z = P", "unknown P"),
    ("corr Q X P 0", "unknown P"),
    ("corr Q X x 0", "not_correlatable x"),
    ("corr Q R X 0", "not_correlatable R"),
    ("corr Q X X 0", "not_correlatable X"),
    ("corr Q X B 0", "already_correlated B"),
    ("set corr P X Y 0", "not_correlatable Y"),
    ("set given A 1 rect 1", "in_use P"),
    ("set given B 2 std 1 dof 5", "in_use P"),
    ("set corr X A B 0", "not_earlier A"),
    ("set readings A 1 2", "in_use P"),
    ("remove B", "in_use P"),
    ("redo", "nothing_to_redo"),
    ("restore X", "no_mark X"),
    ("at Y value X", "no_mark Y"),
    ("at M value y", "no_such_result y"),
    ("value M", "no_such_result M"),
    ("value P", "no_such_result P"),
    ("value X.Y", "no_such_result X.Y"),
    ("sens T X", "no_such_result T"),
    ("sens Y W", "no_such_result W"),
    ("at M sens Y P", "no_such_result P"),
    ("cov Y y", "no_such_result y"),
    ("r y Y", "no_such_result y"),
    ("at M dof P", "no_such_result P"),
    ("decide Y P 95", "no_such_result P"),
    ("budget P", "no_such_result P"),
];

// Tables, and commands by their names, that are refused on this sheet, and why.
const REFUSED_TABLES: [(&str, &str); 26] = [
    ("table U\nend", "too_few"),
    ("table U\nA\n1\nend", "too_few"),
    ("table U\nV,V\n1,2\n3,4\nend", "shape 1"),
    ("table U\nV,\n1,2\n3,4\nend", "shape 1"),
    ("table U\n\" end\"\n1\n2\nend", "shape 1"),
    ("table U\naaaaaaaaaaaaaaaaaaaaaaaaa\n1\n2\nend", "shape 1"),
    (
        "table U\nA,B,C,D,E,F,G,H,I\n1,2,3,4,5,6,7,8,9\nend",
        "shape 1",
    ),
    ("table U\nV,I\n1,2\n3\nend", "shape 3"),
    ("table U\nV\n1\n \nend", "not_number 3"),
    ("table U\nV\n1\n\"2,\n3\"\nend", "not_number 3"),
    ("table U\nV\n9\n1\n1e-15\nend", "wide 2"),
    ("table U\nA\n1\nx\nend", "not_number 3"),
    ("table U\nA\n1\n1e999\nend", "number_range 3"),
    ("table U\nA\n1\n1000000000\nend", "wide 3"),
    ("table\nA\n1\n2\nend", "syntax 6"),
    ("table U.V\nA\n1\n2\nend", "syntax 7"),
    ("set table U x\nA\n1\n2\nend", "syntax 13"),
    ("table X\nA\n1\n2\nend", "duplicate X"),
    ("set table U\nA\n1\n2\nend", "unknown U"),
    ("set table T\nA\n1\n2\nend", "in_use W"),
    ("set given T 1 std 1", "in_use W"),
    ("remove T", "in_use W"),
    ("let Z = T", "unknown T"),
    ("let Z = T.C", "unknown T.C"),
    ("corr Q X T.A 0", "not_correlatable T.A"),
    ("value T", "no_such_result T"),
];

// Inputs of each shape and with degrees of freedom, readings, tables and correlations, as they are written and as they are dumped.
const SHAPES: [(&str, &str); 16] = [
    ("given A 1.50 exact", "given A 1.5 exact"),
    ("given B +2 std 1e-1", "given B 2 std 0.1"),
    ("given C 3 exp 0.050 2.0", "given C 3 exp 0.05 2"),
    ("given D 4\tnorm 1 90 # note", "given D 4 norm 1 90"),
    ("given E 5 norm 1 95", "given E 5 norm 1 95"),
    ("given F 6 norm 1 99 dof inf", "given F 6 norm 1 99"),
    ("given G 7 rect 010", "given G 7 rect 10"),
    ("given H 8 tri 0", "given H 8 tri 0"),
    ("given I 9 trap 1 0.50", "given I 9 trap 1 0.5"),
    ("given J 10 arcsine 1 dof 01", "given J 10 arcsine 1 dof 1"),
    (
        "given K 11 std 1 dof 1000000",
        "given K 11 std 1 dof 1000000",
    ),
    ("given L 12 rect 1 rel 07", "given L 12 rect 1 rel 7"),
    ("readings M 1e1 -0.50\t2 # note", "readings M 10 -0.5 2"),
    ("corr N C E -0.50", "corr N C E -0.5"),
    ("corr O B D +1", "corr O B D 1"),
    (
        "table P # two\nA , B\n1.50,2e0\n\n3,\"4\"\n end",
        "table P\nA,B\n1.5,2\n3,4\nend",
    ),
];

// Takes one byte at a time.
#[derive(Drop)]
struct Narrow<'a> {
    bytes: &'a mut Vec<u8>,
}

impl Write for Narrow<'_> {
    fn write(&mut self, buf: &[u8]) -> io::Result<usize> {
        let Some(first) = buf.first() else {
            return Ok(0);
        };
        self.bytes.push(*first)?;
        Ok(1)
    }

    fn flush(&mut self) -> io::Result<()> {
        Ok(())
    }
}

// Gives one byte at a time.
#[derive(Drop)]
struct Drip<'a> {
    rest: &'a [u8],
}

impl Read for Drip<'_> {
    fn read(&mut self, buf: &mut [u8]) -> io::Result<usize> {
        let most = buf.len().min(1);
        self.rest.read(&mut buf[..most])
    }
}

// The words `gumtree` and `word`.
pub(crate) fn words(rt: &HostRuntime, word: &str) -> Result<Vec<String>, Fail>
    ensures { IfOk result (λ words. map string_bytes words.items ≡ codes "gumtree" ∷ word.now ∷ []) }
{
    let mut words = Vec::new(rt.alloc());
    words.push(String::from_str(rt.alloc(), "gumtree")?)?;
    words.push(String::from_str(rt.alloc(), word)?)?;
    Ok(words)
}

// The status, and what is written for a script that comes byte by byte, to a sink that takes one
// byte at a time. The counter is for the ledger that `blank` stands for.
pub(crate) fn run_streams<L: Ledger>(
    rt: &HostRuntime,
    words: &Vec<String>,
    script: &[u8],
    blank: Blank,
) -> Result<(Status, Vec<u8>), Fail>
    requires name { blank.name ≡ L.name }
    requires parts { blank.parts ≡ L.parts }
    requires one { L.parts ≡ 1 }
{
    let mut source = StdSource::new(Drip { rest: script });
    let mut replies = Vec::new(rt.alloc());
    let mut sink = StdSink::new(Narrow {
        bytes: &mut replies,
    });
    let mut steps = Steps::<L>::new(blank);
    let status = run(rt.alloc(), words, &mut source, &mut sink, &mut steps);
    drop(sink);
    Ok((status, replies))
}

// The same between objects in memory.
fn run_in_memory<L: Ledger>(
    rt: &HostRuntime,
    source: &mut MemorySource,
    sink: &mut MemorySink,
    blank: Blank,
) -> Result<Status, Fail>
    requires name { blank.name ≡ L.name }
    requires parts { blank.parts ≡ L.parts }
    requires one { L.parts ≡ 1 }
    requires count { ⟦<MemorySource as Source>⟧.count source.old ≤ 2 ^ 62 }
    requires room { RoomForReplies (⟦<MemorySink as Sink>⟧.room sink.old) (⟦<MemorySource as Source>⟧.left source.old) }
{
    let mut steps = Steps::<L>::new(blank);
    Ok(run(rt.alloc(), &words(rt, "run")?, source, sink, &mut steps))
}

pub(crate) fn replies_to(
    rt: &HostRuntime,
    word: &str,
    script: &[u8],
) -> Result<(Status, Vec<u8>), Fail> {
    run_streams::<Brand>(rt, &words(rt, word)?, script, Blank::new(1))
}

macro_rules! assert_replies {
    ($rt:expr; $($script:expr => $replies:expr),+ $(,)?) => {
        $(
            let (status, replies) = replies_to(&$rt, "run", $script)?;
            assert_eq!($rt; status, Status::Done);
            assert_eq!($rt; replies.as_slice(), $replies.as_slice());
        )+
    };
}

#[test]
fn answers_scripts_byte_by_byte(rt: HostRuntime) -> Result<(), Fail> {
    assert_replies! { rt;
        b"" => b"",
        FIRST => FIRST_REPLIES,
        b"given X 5 std 1\n\n# ohm\nvalue X" => b"ok\nvalue X 5 5\n",
        b"given X 5 std 1\ngiven X 6 std 1\nlet X = Y\nvalue X\n"
            => b"ok\nrefused duplicate X\nrefused duplicate X\nvalue X 5 5\n",
        b"let Y = 1 + X + Z\nvalue Y\n" => b"refused unknown X\nrefused no_such_result Y\n",
    }
    Ok(())
}

#[test]
fn answers_formulas(rt: HostRuntime) -> Result<(), Fail> {
    assert_replies! { rt;
        b"let T = 1/3\nvalue T\n" => b"ok\nvalue T 0.333333333333333333 0.333333333333333334\n",
        b"let P = (-2)^3\nvalue P\nlet Q = 10^9 * 10^9\nvalue Q\nlet N = 2^0\n"
            => b"ok\nvalue P -8 -8\nok\nfault overflow Q\nrefused bad_power 11\n",
        b"given X 5 std 1\nlet A = X*2\nlet B = X*3\nlet C = B - A - X\nvalue C\n"
            => b"ok\nok\nok\nok\nvalue C 0 0\n",
    }
    Ok(())
}

#[test]
fn answers_sensitivities(rt: HostRuntime) -> Result<(), Fail> {
    assert_replies! { rt;
        b"table T\nA,B\n1,2\n3,6\nend\nreadings R 1 2\nlet P = T.A*T.B\nlet Q = P*P - R/P\nmark M\nsens Q T.A\nsens P T.B\nset readings R 5 7\nsens Q R\nat M sens Q R\nundo\nsens Q R\n"
            => b"ok\nok\nok\nok\nok\nsens Q T.A 64.09375 64.09375\nsens P T.B 2 2\nok\nsens Q R -0.125 -0.125\nsens Q R -0.125 -0.125\nok\nsens Q R -0.125 -0.125\n",
        b"given X 0 exact\nlet Y = X^2\nlet Z = Y*1e17\nsens Z X\nlet W = Z*1e17\nvalue W\nsens W X\n"
            => b"ok\nok\nok\nsens Z X 0 0\nok\nvalue W 0 0\nfault law_overflow\n",
    }
    Ok(())
}

#[test]
fn answers_variances(rt: HostRuntime) -> Result<(), Fail> {
    assert_replies! { rt;
        b"given S 10 std 2\ngiven A 1 std 1\nlet X = S + A\nlet Y = S - A\nvar X\ncov X Y\nr X Y\nmark M\nset given A 1 std 0\nr X Y\nat M cov Y X\nr X A\n"
            => b"ok\nok\nok\nok\nvar X 5 5\ncov X Y 3 3\nr X Y 0.60\nok\nok\nr X Y 1.00\ncov Y X 3 3\nr X A none\n",
        b"table T\nA,B\n1,2\n3,6\nend\ngiven C 1 std 1e9\ngiven D 1 std 1\ncorr P C D 0.5\nvar T.B\ncov T.A T.B\nvar D\nr D T.A\nlet Y = D + T.A\nvar Y\n"
            => b"ok\nok\nok\nok\nvar T.B 4 4\ncov T.A T.B 2 2\nfault law_overflow\nfault law_overflow\nok\nfault law_overflow\n",
    }
    Ok(())
}

#[test]
fn answers_reports(rt: HostRuntime) -> Result<(), Fail> {
    assert_replies! { rt;
        b"given A -1.25 std 0.1 dof 5\nreadings B 1 2 4\nlet S = A - B\nreport S\ndof S\nexpanded S 95\nexpanded S 99\nset given A 5 exact\ndof S\nreport A\nexpanded A 95.45\nundo\nexpanded S 95.45\n"
            => b"ok\nok\nok\nreport S -3.58 u 0.89\ndof S 2\nexpanded S -3.6 U 3.8 k 4.3\nexpanded S -3.6 U 8.8 k 9.92\nok\ndof S 2\nreport A 5 u 0\nexpanded A 5 U 0 k 2\nok\nexpanded S -3.6 U 4.0 k 4.53\n",
        b"given X 123456 std 995\nreport X\nexpanded X 95\nlet T = X/0\ndof T\nexpanded T 9\nexpanded Y 95\n"
            => b"ok\nreport X 123500 u 1000\nexpanded X 123500 U 2000 k 1.96\nok\nfault zero_divisor T\nrefused level\nrefused no_such_result Y\n",
    }
    Ok(())
}

#[test]
fn answers_decisions_and_budgets(rt: HostRuntime) -> Result<(), Fail> {
    assert_replies! { rt;
        b"table T\nV,I\n5.007,19.663\n4.994,19.639\n5.005,19.640\n4.990,19.685\n4.999,19.678\nend\nlet Z = 1000*T.V/T.I\ntol G upper 255 guard 1\ndecide Z G 95\ntol H upper 255 guard 1.5 four\ndecide Z H 95\ntol K upper 255 guard 1.125\ndecide Z K 95\n"
            => b"ok\nok\nok\ndecide Z G Pass\nok\ndecide Z H ConditionalPass\nok\ndecide Z K Pass\n",
        b"given X 1 exact\nlet Y = X/3\ntol T upper 0.333333333333333333 guard 0\ndecide Y T 95\nset given X 1 std 1\nset tol T upper 0.333333333333333333 guard 1 four\ndecide Y T 95\nset given X 3 std 3\nset tol T upper -0.96 guard 1 four\ndecide Y T 95\n"
            => b"ok\nok\nok\ndecide Y T Undecided 1\nok\nok\ndecide Y T Undecided 2\nok\nok\ndecide Y T Undecided 3\n",
        b"given S 100 exp 0.050 2 # certificate\nreadings D 0.012 0.010 0.011 0.013 0.009\ngiven R 0 rect 0.005\nlet M = S + D + R\ntol W lower 99.9 upper 100.1 guard 1\ndecide M W 95\n"
            => b"ok\nok\nok\nok\nok\ndecide M W Pass\n",
        b"given A 1 std 1\ngiven B 2 std 2\ncorr P A B 0.5\nlet S = 2*A\nbudget S\nlet D = A - B\nbudget D\n"
            => b"ok\nok\nok\nok\ninput A value 1 1 var 1 1 sens 2 2 own 4 4\ngroup P 4 4\nbudget S 4 4\nok\ninput A value 1 1 var 1 1 sens 1 1 own 1 1\ninput B value 2 2 var 4 4 sens -1 -1 own 4 4\ngroup P 3 3\nbudget D 3 3\n",
        b"given X 5 std 1\ntable Q\nV,I\n1,2\n3,6\nend\nlet R = Q.I - X\nbudget R\nbudget Q.V\nbudget Q\n"
            => b"ok\nok\nok\ninput X value 5 5 var 1 1 sens -1 -1 own 1 1\ninput Q.I value 4 4 var 4 4 sens 1 1 own 4 4\ngroup X 1 1\ngroup Q 4 4\nbudget R 5 5\ninput Q.V value 2 2 var 1 1 sens 1 1 own 1 1\ngroup Q 1 1\nbudget Q.V 1 1\nrefused no_such_result Q\n",
    }
    Ok(())
}

#[test]
fn answers_faults(rt: HostRuntime) -> Result<(), Fail> {
    assert_replies! { rt;
        b"let T = 999999999999999999 + 1\nvalue T\nlet U = 999999999999999998 + 1\nvalue U\n"
            => b"ok\nfault overflow T\nok\nvalue U 999999999999999999 999999999999999999\n",
        b"let T = 999999999999999999 + 1\nlet U = T + 1\nvalue U\n" => b"ok\nok\nfault overflow T\n",
        b"let U = 1e-36 / 2\nvalue U\nlet W = 1/U\nlet V = 1 + W\nvalue V\n"
            => b"ok\nvalue U 0 0.000000000000000000000000000000000001\nok\nok\nfault zero_divisor W\n",
    }
    Ok(())
}

#[test]
fn refuses_lines(rt: HostRuntime) -> Result<(), Fail> {
    assert_replies! { rt;
        b"given X 1234567890123456789 exact\n" => b"refused number_range 9\n",
        b"let Y = sin(1)\nlet Y = 2 + 3x\n" => b"refused unknown_function 9\nrefused syntax 14\n",
        b"value  X\nvalue X\r\r\n\x00\xff\n" => b"refused no_such_result X\nrefused syntax 7\nrefused syntax 1\n",
        b"given X 5. std 1\ngiven X 5 std -1\ngiven X\n" => b"refused not_number 9\nrefused negative\nrefused syntax 8\n",
        b"budget X\nvalue T.V\ntol T\nvalue\nvalue X Y\n"
            => b"refused no_such_result X\nrefused no_such_result T.V\nrefused syntax 6\nrefused syntax 6\nrefused syntax 9\n",
        b"undo\nset table T # end\r\nA # ohm\n \t\nundo\nend # A\n \tend\r\nredo\n"
            => b"refused nothing_to_undo\nrefused shape 1\nrefused nothing_to_redo\n",
        b"table T\nA\nundo\n" => b"refused open_table\n",
        b"table T" => b"refused open_table\n",
        b"table T\nV\n\"1\nend\n2\nend\ntable T\nV\n1\n999999999\nend\nvalue T.V\n"
            => b"refused not_number 2\nrefused syntax 1\nrefused syntax 1\nok\nvalue T.V 500000000 500000000\n",
    }
    Ok(())
}

// Adds a line, which has this refusal, and a `dump` to a script and to the replies that it must have.
fn refuse(
    script: &mut Vec<u8>,
    wanted: &mut Vec<u8>,
    line: &str,
    refusal: &str,
) -> Result<(), Fail> {
    script.extend_from_slice(line.as_bytes())?;
    script.extend_from_slice(b"\ndump\n")?;
    wanted.extend_from_slice(b"refused ")?;
    wanted.extend_from_slice(refusal.as_bytes())?;
    wanted.extend_from_slice(b"\n")?;
    wanted.extend_from_slice(DUMP)?;
    Ok(())
}

// A dump is the same before and after each refused line.
#[test]
fn refused_lines_leave_the_sheet(rt: HostRuntime) -> Result<(), Fail> {
    let mut script = SHEET.to_vec(rt.alloc())?;
    let mut wanted = MADE.to_vec(rt.alloc())?;
    for (line, refusal) in REFUSED_LINES {
        refuse(&mut script, &mut wanted, line, refusal)?;
    }
    let (status, replies) = replies_to(&rt, "run", &script)?;
    assert_eq!(rt; status, Status::Done);
    assert_eq!(rt; replies.as_slice(), wanted.as_slice());
    Ok(())
}

// And before and after each refused command.
#[test]
fn refused_commands_leave_the_sheet(rt: HostRuntime) -> Result<(), Fail> {
    let mut script = SHEET.to_vec(rt.alloc())?;
    let mut wanted = MADE.to_vec(rt.alloc())?;
    for (line, refusal) in REFUSED_COMMANDS {
        refuse(&mut script, &mut wanted, line, refusal)?;
    }
    let (status, replies) = replies_to(&rt, "run", &script)?;
    assert_eq!(rt; status, Status::Done);
    assert_eq!(rt; replies.as_slice(), wanted.as_slice());
    Ok(())
}

// And before and after each refused table.
#[test]
fn refused_tables_leave_the_sheet(rt: HostRuntime) -> Result<(), Fail> {
    let mut script = SHEET.to_vec(rt.alloc())?;
    let mut wanted = MADE.to_vec(rt.alloc())?;
    for (line, refusal) in REFUSED_TABLES {
        refuse(&mut script, &mut wanted, line, refusal)?;
    }
    let (status, replies) = replies_to(&rt, "run", &script)?;
    assert_eq!(rt; status, Status::Done);
    assert_eq!(rt; replies.as_slice(), wanted.as_slice());
    Ok(())
}

// What replies come to these rows and a `dump` after them.
fn dumped(rt: &HostRuntime, rows: &[u8]) -> Result<(Status, Vec<u8>), Fail> {
    let mut script = rows.to_vec(rt.alloc())?;
    script.extend_from_slice(b"dump\n")?;
    replies_to(rt, "run", &script)
}

// What is dumped is read as the same rows.
#[test]
fn dumps_each_shape(rt: HostRuntime) -> Result<(), Fail> {
    let mut rows = Vec::new(rt.alloc());
    let mut again = Vec::new(rt.alloc());
    let mut wanted = Vec::new(rt.alloc());
    for (line, row) in SHAPES {
        rows.extend_from_slice(line.as_bytes())?;
        rows.push(b'\n')?;
        again.extend_from_slice(row.as_bytes())?;
        again.push(b'\n')?;
        wanted.extend_from_slice(b"ok\n")?;
    }
    wanted.extend_from_slice(&again)?;
    wanted.extend_from_slice(b"ok\n")?;
    let (status, replies) = dumped(&rt, &rows)?;
    assert_eq!(rt; status, Status::Done);
    assert_eq!(rt; replies.as_slice(), wanted.as_slice());
    let (status, replies) = dumped(&rt, &again)?;
    assert_eq!(rt; status, Status::Done);
    assert_eq!(rt; replies.as_slice(), wanted.as_slice());
    Ok(())
}

// A row's kind changes while others use it, an edit empties the future, and a mark may have a row's name.
#[test]
fn answers_edits(rt: HostRuntime) -> Result<(), Fail> {
    assert_replies! { rt;
        b"given X 5 std 1\nlet Z = 1/(X-5)\nvalue Z\nset given X 6 std 1\nvalue Z\nset let Z = 2^3\nremove X\nvalue Z\n"
            => b"ok\nok\nfault zero_divisor Z\nok\nvalue Z 1 1\nok\nok\nvalue Z 8 8\n",
        b"given X 5 std 1\nlet Y = X+2\ngiven Z 1 exact\nremove X\nremove Y\nundo\ndump\nundo\nundo\nundo\nundo\n"
            => b"ok\nok\nok\nrefused in_use Y\nok\nok\ngiven X 5 std 1\nlet Y = X + 2\ngiven Z 1 exact\nok\nok\nok\nok\nrefused nothing_to_undo\n",
        b"given X 5 std 1\nmark A\nset given X 6 std 1\nvalue X\nat A value X\nrestore A\nvalue X\nundo\nvalue X\nredo\nvalue X\nredo\nrestore B\n"
            => b"ok\nok\nok\nvalue X 6 6\nvalue X 5 5\nok\nvalue X 5 5\nok\nvalue X 6 6\nok\nvalue X 5 5\nrefused nothing_to_redo\nrefused no_mark B\n",
        b"given X 5 std 1 # ohm\r\n\r\nvalue X" => b"ok\nvalue X 5 5\n",
        b"given X 5 std 1\nset given X 6 rect 0.50 rel 25\ndump\nvalue X\nundo\ndump\n"
            => b"ok\nok\ngiven X 6 rect 0.5 rel 25\nok\nvalue X 6 6\nok\ngiven X 5 std 1\nok\n",
        b"let X = 5\nlet Y = X\nset given X 7 exact\nmark X\nundo\nset let X = 6\nredo\nvalue Y\nat X value Y\n"
            => b"ok\nok\nok\nok\nok\nok\nrefused nothing_to_redo\nvalue Y 6 6\nvalue Y 7 7\n",
    }
    Ok(())
}

#[test]
fn keeps_sixteen_marks(rt: HostRuntime) -> Result<(), Fail> {
    let mut script = Vec::new(rt.alloc());
    let mut wanted = Vec::new(rt.alloc());
    for letter in b"ABCDEFGHIJKLMNOP" {
        script.extend_from_slice(b"mark ")?;
        script.push(*letter)?;
        script.push(b'\n')?;
        wanted.extend_from_slice(b"ok\n")?;
    }
    script.extend_from_slice(b"mark Q\nmark A\n")?;
    wanted.extend_from_slice(b"refused marks_full\nok\n")?;
    let (status, replies) = replies_to(&rt, "run", &script)?;
    assert_eq!(rt; status, Status::Done);
    assert_eq!(rt; replies.as_slice(), wanted.as_slice());
    Ok(())
}

// As many steps back as are kept, and one more.
#[test]
fn keeps_256_steps(rt: HostRuntime) -> Result<(), Fail> {
    let mut script = b"given X 0 exact\n".to_vec(rt.alloc())?;
    let mut wanted = b"ok\n".to_vec(rt.alloc())?;
    for _ in 0..256 {
        script.extend_from_slice(b"set given X 1 exact\n")?;
        wanted.extend_from_slice(b"ok\n")?;
    }
    for _ in 0..256 {
        script.extend_from_slice(b"undo\n")?;
        wanted.extend_from_slice(b"ok\n")?;
    }
    script.extend_from_slice(b"undo\nvalue X\n")?;
    wanted.extend_from_slice(b"refused nothing_to_undo\nvalue X 0 0\n")?;
    let (status, replies) = replies_to(&rt, "run", &script)?;
    assert_eq!(rt; status, Status::Done);
    assert_eq!(rt; replies.as_slice(), wanted.as_slice());
    Ok(())
}

// Puts a line of this many blanks at the end.
fn push_blank_line(script: &mut Vec<u8>, blanks: usize) -> Result<(), Fail> {
    for _ in 0..blanks {
        script.push(b' ')?;
    }
    script.push(b'\n')?;
    Ok(())
}

#[test]
fn refuses_long_lines(rt: HostRuntime) -> Result<(), Fail> {
    let mut script = Vec::new(rt.alloc());
    push_blank_line(&mut script, 65_536)?;
    push_blank_line(&mut script, 65_537)?;
    let (status, replies) = replies_to(&rt, "run", &script)?;
    assert_eq!(rt; status, Status::Done);
    assert_eq!(rt; replies.as_slice(), b"refused long_line\n".as_slice());
    Ok(())
}

#[test]
fn runs_between_objects_in_memory(rt: HostRuntime) -> Result<(), Fail> {
    let pieces = [3, 1].to_vec(rt.alloc())?;
    let script = b"value X\n".to_vec(rt.alloc())?;
    let mut source = MemorySource::new(script, Vec::new(rt.alloc()), pieces);
    let mut sink = MemorySink::new(rt.alloc(), 25, Vec::new(rt.alloc()))?;
    let status = run_in_memory::<Brand>(&rt, &mut source, &mut sink, Blank::new(1))?;
    assert_eq!(rt; status, Status::Done);
    assert_eq!(rt; sink.written(), b"refused no_such_result X\n".as_slice());
    Ok(())
}

#[test]
fn ends_at_a_failing_read(rt: HostRuntime) -> Result<(), Fail> {
    let fails = [3].to_vec(rt.alloc())?;
    let pieces = [3, 1].to_vec(rt.alloc())?;
    let mut source = MemorySource::new(b"value X\n".to_vec(rt.alloc())?, fails, pieces);
    let mut sink = MemorySink::new(rt.alloc(), 25, Vec::new(rt.alloc()))?;
    let status = run_in_memory::<Brand>(&rt, &mut source, &mut sink, Blank::new(1))?;
    assert_eq!(rt; status, Status::ReadFault);
    assert_eq!(rt; sink.written().len(), 0);
    Ok(())
}

// No read comes after the one that met the end, so that it cannot fail.
#[test]
fn ends_before_a_read_that_would_fail(rt: HostRuntime) -> Result<(), Fail> {
    let fails = [5].to_vec(rt.alloc())?;
    let pieces = [3, 1].to_vec(rt.alloc())?;
    let mut source = MemorySource::new(b"value X\n".to_vec(rt.alloc())?, fails, pieces);
    let mut sink = MemorySink::new(rt.alloc(), 25, Vec::new(rt.alloc()))?;
    let status = run_in_memory::<Brand>(&rt, &mut source, &mut sink, Blank::new(1))?;
    assert_eq!(rt; status, Status::Done);
    assert_eq!(rt; sink.written(), b"refused no_such_result X\n".as_slice());
    Ok(())
}

#[test]
fn ends_at_a_failing_write(rt: HostRuntime) -> Result<(), Fail> {
    let script = b"value X\n".to_vec(rt.alloc())?;
    let mut source = MemorySource::new(script, Vec::new(rt.alloc()), Vec::new(rt.alloc()));
    let mut sink = MemorySink::new(rt.alloc(), 25, [1].to_vec(rt.alloc())?)?;
    let status = run_in_memory::<Brand>(&rt, &mut source, &mut sink, Blank::new(1))?;
    assert_eq!(rt; status, Status::WriteFault);
    assert_eq!(rt; sink.written().len(), 0);
    Ok(())
}

// The script with the most bytes is answered, and one byte more is too long.
#[test]
fn ends_at_the_input_limit(rt: HostRuntime) -> Result<(), Fail> {
    let mut script = Vec::new(rt.alloc());
    for _ in 0..16_777_216 {
        script.push(b'\n')?;
    }
    let (status, replies) = replies_to(&rt, "run", &script)?;
    assert_eq!(rt; status, Status::Done);
    assert_eq!(rt; replies.len(), 0);
    script.push(b'\n')?;
    let (status, replies) = replies_to(&rt, "run", &script)?;
    assert_eq!(rt; status, Status::InputLimit);
    assert_eq!(rt; replies.len(), 0);
    Ok(())
}
