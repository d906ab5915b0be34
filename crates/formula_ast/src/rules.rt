//! The rules beyond the grammar, at one token: a name before a parenthesis, a literal that is no
//! bound, an exponent that is not from 1 to 9, and how deep and how large a formula may be.

ghost use Rattle.std.specs.Prelude.{◌≡◌, ◌≤◌, ◌+◌, ◌<◌, ◌^◌, nat_le, List};
ghost use Rattle.formula_ast.specs.Trees.{Tree};
ghost use Rattle.formula_ast.specs.Machine.{Waiting};
ghost use Rattle.formula_ast.specs.Reading.{operand_fault, exponent_fault, word_fault, nests, is_too_deep, is_operand_node, is_joint, is_atom_node, is_node, refusal, node_count, after_glued, syntax_place};
ghost use Rattle.formula_ast.specs.States.{stage_on};

use crate::fault::FormulaFault;
use crate::machine::{Level, State};
use crate::token::{Kind, Sign};
use decimal18::NumFault;

/// The most open parentheses and prefix minuses.
const DEEPEST: usize = 64;

/// The most nodes.
const MOST_NODES: usize = 256;

/// The fault of a token as an operand, after which a parenthesis opens or not.
fn operand_fault(kind: &Kind, at: usize, opens: bool) -> Option<FormulaFault>
    ensures { result ≡ operand_fault kind.now at opens }
{
    match kind {
        Kind::Name(_) => {
            if opens {
                Some(FormulaFault::UnknownFunction(at))
            } else {
                None
            }
        }
        Kind::Number(None, _) => Some(FormulaFault::Number(NumFault::NumberRange, at)),
        _ => None,
    }
}

/// The fault of a token as an exponent.
fn exponent_fault(kind: &Kind, at: usize) -> Option<FormulaFault>
    ensures { result ≡ exponent_fault kind.now at }
{
    match kind {
        Kind::Number(_, None) => Some(FormulaFault::BadPower(at)),
        _ => None,
    }
}

/// The fault of a token where it stands.
fn word_fault(state: &State, at: usize, kind: &Kind, opens: bool) -> Option<FormulaFault>
    ensures { (o : List (Waiting Tree)) → result ≡ word_fault (stage_on state.now o) at kind.now opens }
{
    match state {
        State::Operand(_) => operand_fault(kind, at, opens),
        State::Exponent(..) => exponent_fault(kind, at),
        _ => None,
    }
}

/// Whether the token is a parenthesis that opens or a minus.
fn nests(kind: &Kind) -> bool
    ensures { result ≡ nests kind.now }
{
    match kind {
        Kind::Open => true,
        Kind::Joins(Sign::Minus) => true,
        _ => false,
    }
}

/// Whether the level is as deep as a formula may be.
fn is_deepest(level: &Level) -> bool
    ensures { result ≡ nat_le 64 (level.now.base + level.now.minuses) }
{
    level.base as usize + level.minuses as usize >= DEEPEST
}

/// Whether the token makes the nesting too deep.
fn is_too_deep(state: &State, kind: &Kind) -> bool
    ensures { (o : List (Waiting Tree)) → result ≡ is_too_deep (stage_on state.now o) kind.now }
{
    match state {
        State::Operand(level) => nests(kind) && is_deepest(level),
        _ => false,
    }
}

/// Whether the token is a node where an operand may come.
fn is_operand_node(kind: &Kind) -> bool
    ensures { result ≡ is_operand_node kind.now }
{
    match kind {
        Kind::Number(..) => true,
        Kind::Name(_) => true,
        Kind::Joins(Sign::Minus) => true,
        _ => false,
    }
}

/// Whether the token is a node after an atom.
fn is_atom_node(kind: &Kind) -> bool
    ensures { result ≡ is_atom_node kind.now }
{
    match kind {
        Kind::Joins(_) => true,
        Kind::Hat => true,
        _ => false,
    }
}

/// Whether the token is a node after a factor.
fn is_joint(kind: &Kind) -> bool
    ensures { result ≡ is_joint kind.now }
{
    match kind {
        Kind::Joins(_) => true,
        _ => false,
    }
}

/// Whether the token is a node of the formula.
fn is_node(state: &State, kind: &Kind) -> bool
    ensures { (o : List (Waiting Tree)) → result ≡ is_node (stage_on state.now o) kind.now }
{
    match state {
        State::Operand(_) => is_operand_node(kind),
        State::Atom(..) => is_atom_node(kind),
        State::End(..) => is_joint(kind),
        State::Exponent(..) => false,
    }
}

/// How many nodes the token is.
pub fn node_count(state: &State, kind: &Kind) -> usize
    ensures is { (o : List (Waiting Tree)) → result ≡ node_count (stage_on state.now o) kind.now }
    ensures most { result ≤ 1 }
{
    if is_node(state, kind) { 1 } else { 0 }
}

/// The first rule beyond the grammar that the token breaks, before which so many nodes stand.
pub fn refusal(
    state: &State,
    nodes: usize,
    at: usize,
    kind: &Kind,
    opens: bool,
) -> Option<FormulaFault>
    ensures { (o : List (Waiting Tree)) → result ≡ refusal (stage_on state.now o) nodes at kind.now opens }
{
    if let Some(fault) = word_fault(state, at, kind, opens) {
        return Some(fault);
    }
    if is_too_deep(state, kind) {
        return Some(FormulaFault::TooDeep(at));
    }
    if !is_node(state, kind) {
        return None;
    }
    if nodes >= MOST_NODES {
        return Some(FormulaFault::TooMany(at));
    }
    None
}

/// The place of a token with which no formula goes on. Where a number may stand that is directly
/// followed by a byte that may not follow it, this is the place of that byte.
pub fn syntax_place(state: &State, at: usize, len: usize, kind: &Kind) -> usize
    requires { at + len < 2 ^ 64 }
    ensures { (o : List (Waiting Tree)) → result ≡ syntax_place (stage_on state.now o) at len kind.now }
{
    match state {
        State::Operand(_) => at + after_glued(kind, len),
        State::Exponent(..) => at + after_glued(kind, len),
        _ => at,
    }
}

/// The length of a number that is directly followed by a byte that may not follow it, and 0 of others.
fn after_glued(kind: &Kind, len: usize) -> usize
    ensures is { result ≡ after_glued kind.now len }
    ensures most { result ≤ len }
{
    match kind {
        Kind::Glued => len,
        _ => 0,
    }
}
