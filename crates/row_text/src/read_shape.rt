//! The shape of an input: the word that names it, and its parameters.

ghost use Rattle.std.specs.Prelude.{◌≡◌, length, Ok, Err, IfOk, IfErr};
ghost use Rattle.line_text.specs.Words.{words_left};
ghost use Rattle.row_text.specs.Parts.{any_word};
ghost use Rattle.row_text.specs.Givens.{kind_of, level_of, shape_of_kind, shape_word};

use crate::parts::read_number;
use line_text::Words;
use sheet_rows::RowFault;
use type_b::Shape;

const EXACT: &[u8] = b"exact";

const STD: &[u8] = b"std";

const EXP: &[u8] = b"exp";

const NORM: &[u8] = b"norm";

const RECT: &[u8] = b"rect";

const TRI: &[u8] = b"tri";

const TRAP: &[u8] = b"trap";

const ARCSINE: &[u8] = b"arcsine";

/// What a word says that names a shape.
#[derive(Clone, Copy, Debug, PartialEq, Eq)]
enum ShapeKind {
    Exact,
    Std,
    Exp,
    Norm,
    Rect,
    Tri,
    Trap,
    Arcsine,
}

/// The kind of shape that the word names.
fn kind_of(word: &[u8]) -> Option<ShapeKind>
    ensures { result ≡ kind_of word.now }
{
    if word == EXACT {
        return Some(ShapeKind::Exact);
    }
    if word == STD {
        return Some(ShapeKind::Std);
    }
    if word == EXP {
        return Some(ShapeKind::Exp);
    }
    if word == NORM {
        return Some(ShapeKind::Norm);
    }
    if word == RECT {
        return Some(ShapeKind::Rect);
    }
    if word == TRI {
        return Some(ShapeKind::Tri);
    }
    if word == TRAP {
        return Some(ShapeKind::Trap);
    }
    if word == ARCSINE {
        return Some(ShapeKind::Arcsine);
    }
    None
}

/// The level of confidence that the word says, in percent. The level 0, which `type_b::check` refuses, stands
/// for each word that says none.
fn level_of(word: &[u8]) -> u8
    ensures { result ≡ level_of word.now }
{
    match word {
        b"90" => 90,
        b"95" => 95,
        b"99" => 99,
        _ => 0,
    }
}

/// A level of confidence, for which any word may stand.
fn read_level(words: &mut Words<'_>) -> Result<u8, RowFault>
    ensures ok { IfOk result (λ level. any_word level_of (length words.old.line) (words_left words.old)
        ≡ Ok (record { item = level; rest = words_left words.new })) }
    ensures err { IfErr result (λ fault. any_word level_of (length words.old.line) (words_left words.old) ≡ Err fault) }
    ensures line { words.new.line ≡ words.old.line }
{
    match words.next() {
        Some(word) => Ok(level_of(word.text)),
        None => Err(RowFault::Syntax(words.end() + 1)),
    }
}

/// The parameters of a shape of this kind.
fn read_parameters(kind: ShapeKind, words: &mut Words<'_>) -> Result<Shape, RowFault>
    ensures ok { IfOk result (λ shape. shape_of_kind kind (length words.old.line) (words_left words.old)
        ≡ Ok (record { item = shape; rest = words_left words.new })) }
    ensures err { IfErr result (λ fault. shape_of_kind kind (length words.old.line) (words_left words.old) ≡ Err fault) }
    ensures line { words.new.line ≡ words.old.line }
{
    match kind {
        ShapeKind::Exact => Ok(Shape::Exact),
        ShapeKind::Std => Ok(Shape::Std {
            u: read_number(words)?,
        }),
        ShapeKind::Exp => Ok(Shape::Exp {
            expanded: read_number(words)?,
            k: read_number(words)?,
        }),
        ShapeKind::Norm => Ok(Shape::Norm {
            half: read_number(words)?,
            level: read_level(words)?,
        }),
        ShapeKind::Rect => Ok(Shape::Rect {
            half: read_number(words)?,
        }),
        ShapeKind::Tri => Ok(Shape::Tri {
            half: read_number(words)?,
        }),
        ShapeKind::Trap => Ok(Shape::Trap {
            half: read_number(words)?,
            beta: read_number(words)?,
        }),
        ShapeKind::Arcsine => Ok(Shape::Arcsine {
            half: read_number(words)?,
        }),
    }
}

/// A shape with its parameters.
pub(crate) fn read_shape(words: &mut Words<'_>) -> Result<Shape, RowFault>
    ensures ok { IfOk result (λ shape. shape_word (length words.old.line) (words_left words.old)
        ≡ Ok (record { item = shape; rest = words_left words.new })) }
    ensures err { IfErr result (λ fault. shape_word (length words.old.line) (words_left words.old) ≡ Err fault) }
    ensures line { words.new.line ≡ words.old.line }
{
    let Some(word) = words.next() else {
        return Err(RowFault::Syntax(words.end() + 1));
    };
    match kind_of(word.text) {
        Some(kind) => read_parameters(kind, words),
        None => Err(RowFault::Syntax(word.place + 1)),
    }
}
