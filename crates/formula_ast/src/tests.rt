use crate::{
    Formula, FormulaFault, Name, NameList, is_plain_name, names, print_formula, read_formula,
};
use decimal18::NumFault;
use line_text::Bytes;
use std::test::Fail;

// Formulas, and how they are printed.
const PRINTED: [(&str, &str); 57] = [
    ("-(a+b)*c", "-(a + b) * c"),
    ("a-(b-c)", "a - (b - c)"),
    ("(a^2)^3", "(a^2)^3"),
    ("-a^2", "-a^2"),
    ("--1", "--1"),
    ("a*-b", "a * -b"),
    ("a/-b", "a / -b"),
    ("((a))", "a"),
    ("2e1", "20"),
    ("a-b-c", "a - b - c"),
    ("(a-b)-c", "a - b - c"),
    ("a+(b+c)", "a + (b + c)"),
    ("a-(b+c)", "a - (b + c)"),
    ("a+b*c", "a + b * c"),
    ("a*b+c", "a * b + c"),
    ("a+(b*c)", "a + b * c"),
    ("a/b/c", "a / b / c"),
    ("a/b*c", "a / b * c"),
    ("a/(b/c)", "a / (b / c)"),
    ("a/(b*c)", "a / (b * c)"),
    ("a*(b/c)", "a * (b / c)"),
    ("(a*b)/c", "a * b / c"),
    ("a*(b+c)", "a * (b + c)"),
    ("(a+b)*(c-d)", "(a + b) * (c - d)"),
    ("(a-b)/(c)", "(a - b) / c"),
    ("-(a*b)", "-(a * b)"),
    ("-(a/b)", "-(a / b)"),
    ("-(a-b)", "-(a - b)"),
    ("-a*b", "-a * b"),
    ("(-a)*b", "-a * b"),
    ("(-a)^2", "(-a)^2"),
    ("-(a^2)", "-a^2"),
    ("-(-a)", "--a"),
    ("- - -a", "---a"),
    ("a--b", "a - -b"),
    ("a+(-b)", "a + -b"),
    ("(a+b)^-3", "(a + b)^-3"),
    ("(a/b)^2", "(a / b)^2"),
    ("2 ^ - 3", "2^-3"),
    ("(2)^9", "2^9"),
    ("-1^2", "-1^2"),
    ("(-1)^2", "(-1)^2"),
    ("2.50", "2.5"),
    ("1E-2", "0.01"),
    ("1e+3", "1000"),
    ("0.0e5", "0"),
    ("007", "7"),
    (" \t a \t", "a"),
    ("1\t+\t2", "1 + 2"),
    ("_.a", "_.a"),
    ("t.x * t.y", "t.x * t.y"),
    ("sin + 1", "sin + 1"),
    ("(sin)*(1)", "sin * 1"),
    ("e", "e"),
    ("E1/1e0", "E1 / 1"),
    ("abcdefghijklmnopqrstuvwx", "abcdefghijklmnopqrstuvwx"),
    (
        "abcdefghijklmnopqrstuvwx.ABCDEFGHIJKLMNOPQRSTUVWX",
        "abcdefghijklmnopqrstuvwx.ABCDEFGHIJKLMNOPQRSTUVWX",
    ),
];

// Texts with which the grammar does not go on, and the place, from 0.
const SYNTAX: [(&str, usize); 92] = [
    ("", 0),
    (" ", 0),
    ("\t \t", 0),
    ("()", 1),
    ("( )", 2),
    ("(1", 2),
    ("(1 ", 2),
    ("((1)", 4),
    ("1)", 1),
    ("(1))", 3),
    ("(a+)", 3),
    (")", 0),
    ("a b", 2),
    ("1 2", 2),
    ("(1)(2)", 3),
    ("(1)2", 3),
    ("(1)a", 3),
    ("2(3)", 1),
    ("1+", 2),
    ("1 + ", 3),
    ("\t1 +\t", 4),
    ("-", 1),
    ("- -", 3),
    ("*1", 0),
    ("+1", 0),
    ("/a", 0),
    ("^2", 0),
    ("+", 0),
    ("1**2", 2),
    ("1+*2", 2),
    ("1-+2", 2),
    ("1 / / 2", 4),
    ("a^b", 2),
    ("a^(2)", 2),
    ("a^--2", 3),
    ("a^+2", 2),
    ("a^*2", 2),
    ("a^-(2)", 3),
    ("a^", 2),
    ("a^ ", 2),
    ("a^-", 3),
    ("2^3^2", 3),
    ("2^-3^2", 4),
    ("a^2 3", 4),
    ("a^2(3)", 3),
    ("a^2b", 3),
    ("a^2 b", 4),
    ("x.", 0),
    (".5", 0),
    ("5.", 1),
    ("5.x", 1),
    ("1e", 1),
    ("1e+", 1),
    ("1e-x", 1),
    ("1.5e", 3),
    ("1.e5", 1),
    ("1e5x", 3),
    ("1e5.", 3),
    ("1e1234", 5),
    ("1e-1234", 6),
    ("1 + 1e1234", 9),
    ("1.2.3", 3),
    ("1e999x", 5),
    ("2x", 1),
    ("2_", 1),
    ("2 3x", 2),
    ("2+3x", 3),
    ("2 + 3x", 5),
    ("2^3x", 3),
    ("2^-1.5.", 6),
    ("a.b.c", 0),
    ("1 + a.b.c", 4),
    ("a.b.c(1)", 0),
    ("a.1", 0),
    ("a..b", 0),
    (".a", 0),
    ("a.b.", 0),
    ("abcdefghijklmnopqrstuvwxy", 0),
    ("1+abcdefghijklmnopqrstuvwxy", 2),
    ("t.abcdefghijklmnopqrstuvwxy", 0),
    ("1 @ 2", 2),
    ("#1", 0),
    ("1 = 2", 2),
    ("1,5", 1),
    ("a[0]", 1),
    ("\0", 0),
    ("1\0", 1),
    ("1 + \r", 4),
    ("1\n", 1),
    ("é", 0),
    ("aé", 1),
    ("2^é", 2),
];

// Texts in which a name stands before a parenthesis, and the name's place.
const FUNCTIONS: [(&str, usize); 7] = [
    ("sin(1)", 0),
    ("sin (1)", 0),
    ("a(", 0),
    ("t.x(1)", 0),
    ("1 + f\t(2)", 4),
    ("-(cos(x))", 2),
    ("2 * _()", 4),
];

// Texts in which an operand is a literal out of range, and its place.
const NUMBERS: [(&str, usize); 7] = [
    ("1e999", 0),
    ("1 + 1e18", 4),
    ("1234567890123456789", 0),
    ("0.1e-36", 0),
    ("-1e-37", 1),
    ("(1e999", 1),
    ("1e999 ^ 0", 0),
];

// Texts with an exponent that is not a single digit from 1 to 9, and its place.
const POWERS: [(&str, usize); 9] = [
    ("2^0", 2),
    ("2^-0", 3),
    ("2^10", 2),
    ("2^00", 2),
    ("2^1.0", 2),
    ("2^1e0", 2),
    ("2^1e999", 2),
    ("a ^ - 12", 6),
    ("a^0)", 2),
];

#[test]
fn formulas_are_printed(rt: HostRuntime) -> Result<(), Fail> {
    for (text, printed) in PRINTED {
        let formula = read_formula(rt.alloc(), text.as_bytes()).map_err(|_| "refused")?;
        let bytes = print_formula(rt.alloc(), &formula)?;
        assert_eq!(rt; bytes.as_slice(), printed.as_bytes(), "at {text}");
        let again = read_formula(rt.alloc(), bytes.as_slice()).map_err(|_| "refused")?;
        let bytes = print_formula(rt.alloc(), &again)?;
        assert_eq!(rt; bytes.as_slice(), printed.as_bytes(), "again at {text}");
    }
    Ok(())
}

// The fault of the text, if any.
fn fault_of(rt: &HostRuntime, text: &[u8]) -> Option<FormulaFault> {
    read_formula(rt.alloc(), text).err()
}

#[test]
fn texts_are_refused_at_their_first_fault(rt: HostRuntime) {
    for (text, place) in SYNTAX {
        let fault = Some(FormulaFault::Syntax(place));
        assert_eq!(rt; fault_of(&rt, text.as_bytes()), fault, "at {text}");
    }
    for (text, place) in FUNCTIONS {
        let fault = Some(FormulaFault::UnknownFunction(place));
        assert_eq!(rt; fault_of(&rt, text.as_bytes()), fault, "at {text}");
    }
    for (text, place) in NUMBERS {
        let fault = Some(FormulaFault::Number(NumFault::NumberRange, place));
        assert_eq!(rt; fault_of(&rt, text.as_bytes()), fault, "at {text}");
    }
    for (text, place) in POWERS {
        let fault = Some(FormulaFault::BadPower(place));
        assert_eq!(rt; fault_of(&rt, text.as_bytes()), fault, "at {text}");
    }
    assert_eq!(rt; fault_of(&rt, &[255]), Some(FormulaFault::Syntax(0)));
    assert_eq!(rt; fault_of(&rt, &[49, 128]), Some(FormulaFault::Syntax(1)));
}

// A text of `prefix`, so many times `part`, and `after`.
fn repeated(
    rt: &HostRuntime,
    prefix: &str,
    part: &str,
    times: usize,
    after: &str,
) -> Result<Bytes, Fail> {
    let mut text = Bytes::from_slice(rt.alloc(), prefix.as_bytes())?;
    for _ in 0..times {
        text.extend_from_slice(part.as_bytes())?;
    }
    text.extend_from_slice(after.as_bytes())?;
    Ok(text)
}

// Texts at a limit: a prefix, a part and how often it stands there, what is after, and how many
// parentheses close.
const ACCEPTED_AT_LIMITS: [(&str, &str, usize, &str, usize); 5] = [
    ("", "(", 64, "1", 64),
    ("", "-", 64, "1", 0),
    ("-1", "+1", 127, "", 0),
    ("-1", "*-1", 84, "", 0),
    ("", "0", 65536, "", 0),
];

// Texts that nest too deep, and the place.
const TOO_DEEP: [(&str, &str, usize, &str, usize); 6] = [
    ("", "(", 65, "1", 64),
    ("", "-", 65, "1", 64),
    ("1+(", "-(", 31, "-(-1))", 66),
    ("1 * ", "(", 65, "", 68),
    ("", "(", 65536, "", 64),
    ("", "-", 65536, "", 64),
];

// Texts with too many nodes, and the place.
const TOO_MANY: [(&str, &str, usize, &str, usize); 3] = [
    ("1", "+1", 128, "", 256),
    ("-1", "+1", 128, "", 256),
    ("a^2", "*b", 128, "", 257),
];

#[test]
fn texts_at_limits_are_read(rt: HostRuntime) -> Result<(), Fail> {
    for (prefix, part, times, after, closed) in ACCEPTED_AT_LIMITS {
        let text = repeated(&rt, prefix, part, times, after)?;
        let text = repeated(&rt, str::from_utf8(text.as_slice())?, ")", closed, "")?;
        assert_eq!(rt;
            fault_of(&rt, text.as_slice()),
            None,
            "at {times} times {part}"
        );
    }
    Ok(())
}

#[test]
fn texts_past_limits_are_refused(rt: HostRuntime) -> Result<(), Fail> {
    for (prefix, part, times, after, place) in TOO_DEEP {
        let text = repeated(&rt, prefix, part, times, after)?;
        let fault = Some(FormulaFault::TooDeep(place));
        assert_eq!(rt;
            fault_of(&rt, text.as_slice()),
            fault,
            "at {times} times {part}"
        );
    }
    for (prefix, part, times, after, place) in TOO_MANY {
        let text = repeated(&rt, prefix, part, times, after)?;
        let fault = Some(FormulaFault::TooMany(place));
        assert_eq!(rt;
            fault_of(&rt, text.as_slice()),
            fault,
            "at {times} times {part}"
        );
    }
    Ok(())
}

#[test]
fn long_tokens_are_refused(rt: HostRuntime) -> Result<(), Fail> {
    let digits = repeated(&rt, "", "1", 65536, "")?;
    let fault = Some(FormulaFault::Number(NumFault::NumberRange, 0));
    assert_eq!(rt; fault_of(&rt, digits.as_slice()), fault);
    let glued = repeated(&rt, "", "1", 65536, "x")?;
    assert_eq!(rt;
        fault_of(&rt, glued.as_slice()),
        Some(FormulaFault::Syntax(65536))
    );
    let name = repeated(&rt, "", "a", 65536, "")?;
    assert_eq!(rt;
        fault_of(&rt, name.as_slice()),
        Some(FormulaFault::Syntax(0))
    );
    Ok(())
}

#[test]
fn names_in_order_of_first_use(rt: HostRuntime) -> Result<(), Fail> {
    let text = b"b*a + (b - t.x)^2 / -(a + b) + 1 + c";
    let formula = read_formula(rt.alloc(), text).map_err(|_| "refused")?;
    let found = names(rt.alloc(), &formula)?;
    let mut all = Bytes::new(rt.alloc())?;
    for name in found.as_slice() {
        all.extend_from_slice(name.as_bytes())?;
        all.push(b' ')?;
    }
    assert_eq!(rt; all.as_slice(), b"b a t.x c ".as_slice());
    Ok(())
}

#[test]
fn names_are_one_or_two_words(rt: HostRuntime) -> Result<(), Fail> {
    for (text, plain) in [("a", true), ("_9", true), ("t.x", false), ("_._", false)] {
        let name = Name::new(text.as_bytes()).ok_or("no name")?;
        assert_eq!(rt; name.as_bytes(), text.as_bytes());
        assert_eq!(rt; name.is_plain(), plain, "at {text}");
        assert_eq!(rt; is_plain_name(text.as_bytes()), plain, "at {text}");
    }
    for text in ["", "9a", "a b", "a.", ".a", "a.b.c", "a-b"] {
        assert!(rt; Name::new(text.as_bytes()).is_none(), "at {text}");
    }
    let mut list = NameList::new(rt.alloc())?;
    list.push(Name::new(b"x").ok_or("no name")?)?;
    assert_eq!(rt; list.as_slice().len(), 1);
    Ok(())
}

#[test]
fn any_exponent_is_printed(rt: HostRuntime) -> Result<(), Fail> {
    let base = Formula::Var(Name::new(b"x").ok_or("no name")?);
    let power = Formula::Pow(Box::new(rt.alloc(), base)?, -128);
    assert_eq!(rt;
        print_formula(rt.alloc(), &power)?.as_slice(),
        b"x^-128".as_slice()
    );
    Ok(())
}
