//! The reading of tokens, one by one: what waits for its right operand, and the step after a token.

ghost use Rattle.std.specs.Prelude.{◌≡◌, ◌+◌, ◌<◌, ◌≤◌, false, List, [], ◌∷◌, Option, Some, None, IfSome, IfOk, option_map};
ghost use Rattle.formula_ast.specs.Trees.{Tree, Joined, Number, Variable};
ghost use Rattle.formula_ast.specs.Grammar.{number_of, exponent_of};
ghost use Rattle.formula_ast.specs.Machine.{Waiting, Stage, AtOperand, AtAtom, AtExponent, trees, fresh, minused, first_stage, put, negated, signed_on, closed, after, step, finish};
ghost use Rattle.formula_ast.specs.Reading.{is_too_deep};
ghost use Rattle.formula_ast.specs.FirstTokens.{IsSmall};
ghost use Rattle.formula_ast.specs.Views.{tree_of};
ghost use Rattle.formula_ast.specs.States.{left_of, waiting_of, outside, stage_on, stage_of};

use crate::formula::Formula;
use crate::name::Name;
use crate::token::{Kind, Sign};
use decimal18::Dec;
use line_text::OutOfMemory;
use std::alloc::Global;

/// A left operand and its operator.
#[derive(Drop)]
pub struct Left {
    operand: Box<Formula>,
    sign: Sign,
}

/// What waits inside one pair of parentheses: the left operand of a sum, that of a product, and the
/// number of minuses before the factor; and the nesting outside.
#[derive(Drop)]
pub struct Level {
    pub added: Option<Left>,
    pub multiplied: Option<Left>,
    pub minuses: u8,
    pub base: u8,
}

/// What may come next.
#[derive(Drop)]
pub enum State {
    /// An operand.
    Operand(Level),
    /// After an atom: `^`, or what may follow a power.
    Atom(Level, Box<Formula>),
    /// After a factor, with the nesting outside and the left operand of a sum.
    End(u8, Option<Left>, Box<Formula>),
    /// An exponent, after its minus or not.
    Exponent(Level, Box<Formula>, bool),
}

impl Level {
    /// Nothing waits inside these parentheses yet.
    pub fn fresh(base: u8) -> Level
        ensures { waiting_of result ≡ fresh base }
    {
        Level {
            added: None,
            multiplied: None,
            minuses: 0,
            base,
        }
    }
}

impl State {
    /// The state before a text.
    pub fn first() -> State
        ensures { stage_of result [] ≡ first_stage }
    {
        State::Operand(Level::fresh(0))
    }
}

/// The formula of two operands and their operator.
fn joined(left: Left, right: Box<Formula>) -> Formula
    ensures { tree_of result ≡ Joined left.sign (tree_of left.operand.value) (tree_of right.value) }
{
    let operand = left.operand;
    match left.sign {
        Sign::Plus => Formula::Add(operand, right),
        Sign::Minus => Formula::Sub(operand, right),
        Sign::Times => Formula::Mul(operand, right),
        Sign::Over => Formula::Div(operand, right),
    }
}

/// The formula of two operands and their operator, allocated.
fn join(alloc: Global, left: Left, right: Box<Formula>) -> Result<Box<Formula>, OutOfMemory>
    ensures { IfOk result (λ f. tree_of f.value ≡ Joined left.sign (tree_of left.operand.value) (tree_of right.value)) }
{
    Ok(Box::new(alloc, joined(left, right))?)
}

/// The formula as the right operand of the left one that waits for it, if any.
fn put(alloc: Global, left: Option<Left>, right: Box<Formula>) -> Result<Box<Formula>, OutOfMemory>
    ensures { IfOk result (λ f. tree_of f.value ≡ put trees (left_of left) (tree_of right.value)) }
{
    match left {
        None => Ok(right),
        Some(left) => join(alloc, left, right),
    }
}

/// The formula after so many minuses.
#[tactic(auto, using(crate::proofs::Levels::negated_less))]
fn negated(alloc: Global, minuses: u8, operand: Box<Formula>) -> Result<Box<Formula>, OutOfMemory>
    ensures { IfOk result (λ f. tree_of f.value ≡ negated trees minuses (tree_of operand.value)) }
{
    let mut formula = operand;
    let mut left = minuses;
    while left > 0 {
        left -= 1;
        formula = Box::new(alloc, Formula::Neg(formula))?;
    }
    Ok(formula)
}

/// The factor, or the product, that ends with this power.
fn factor_done(
    alloc: Global,
    minuses: u8,
    multiplied: Option<Left>,
    power: Box<Formula>,
) -> Result<Box<Formula>, OutOfMemory>
    ensures { IfOk result (λ f. tree_of f.value ≡ put trees (left_of multiplied) (negated trees minuses (tree_of power.value))) }
{
    let factor = negated(alloc, minuses, power)?;
    put(alloc, multiplied, factor)
}

/// The number of an operand. A literal that is no bound, which is refused, stands for 0.
fn number_of(value: Option<Dec>) -> Dec
    ensures { result ≡ number_of value }
{
    value.unwrap_or(Dec::whole(0))
}

/// The exponent of a token and its minus. A literal that is none, which is refused, stands for 0.
fn exponent_of(minus: bool, power: Option<u8>) -> i8
    requires { IfSome power (λ n. n ≤ 9) }
    ensures { result ≡ exponent_of minus power }
{
    let size = power.unwrap_or(0) as i8;
    if minus { -size } else { size }
}

/// The state after an operator that follows an operand.
fn signed_on(
    alloc: Global,
    base: u8,
    added: Option<Left>,
    operand: Box<Formula>,
    sign: Sign,
) -> Result<State, OutOfMemory>
    ensures { IfOk result (λ s. (o : List (Waiting Tree)) →
        stage_on s o ≡ signed_on trees base (left_of added) (tree_of operand.value) o sign) }
{
    match sign {
        Sign::Times | Sign::Over => Ok(State::Operand(Level {
            added,
            multiplied: Some(Left { operand, sign }),
            minuses: 0,
            base,
        })),
        Sign::Plus | Sign::Minus => {
            let operand = put(alloc, added, operand)?;
            Ok(State::Operand(Level {
                added: Some(Left { operand, sign }),
                multiplied: None,
                minuses: 0,
                base,
            }))
        }
    }
}

/// The state after a closed parenthesis.
#[tactic(auto, using(crate::proofs::Levels::outside_more))]
fn closed(
    alloc: Global,
    added: Option<Left>,
    operand: Box<Formula>,
    outer: &mut Vec<Level>,
) -> Result<Option<State>, OutOfMemory>
    ensures { IfOk result (λ r. option_map (λ s. stage_of s outer.new.items) r
        ≡ closed (put trees (left_of added) (tree_of operand.value)) (outside outer.old.items)) }
{
    let group = put(alloc, added, operand)?;
    match outer.pop() {
        Some(level) => Ok(Some(State::Atom(level, group))),
        None => Ok(None),
    }
}

/// The state after a token that follows a factor.
fn after(
    alloc: Global,
    base: u8,
    added: Option<Left>,
    factor: Box<Formula>,
    outer: &mut Vec<Level>,
    kind: &Kind,
) -> Result<Option<State>, OutOfMemory>
    ensures { IfOk result (λ r. option_map (λ s. stage_of s outer.new.items) r
        ≡ after trees base (left_of added) (tree_of factor.value) (outside outer.old.items) kind.now) }
{
    match kind {
        Kind::Joins(sign) => Ok(Some(signed_on(alloc, base, added, factor, *sign)?)),
        Kind::Close => closed(alloc, added, factor, outer),
        _ => Ok(None),
    }
}

/// The level with one more minus before its factor.
fn minused(level: Level) -> Level
    requires { level.minuses < 255 }
    ensures { waiting_of result ≡ minused (waiting_of level) }
{
    Level {
        added: level.added,
        multiplied: level.multiplied,
        minuses: level.minuses + 1,
        base: level.base,
    }
}

/// The state after an open parenthesis.
#[tactic(auto, using(crate::proofs::Levels::outside_more))]
fn opened(level: Level, outer: &mut Vec<Level>) -> Result<State, OutOfMemory>
    requires { level.base + level.minuses < 255 }
    ensures { IfOk result (λ s. stage_of s outer.new.items
        ≡ AtOperand (fresh (level.base + level.minuses + 1)) (waiting_of level ∷ outside outer.old.items)) }
{
    let base = level.base + level.minuses + 1;
    outer.push(level)?;
    Ok(State::Operand(Level::fresh(base)))
}

/// The state after a number.
fn number_read(alloc: Global, level: Level, value: Option<Dec>) -> Result<State, OutOfMemory>
    ensures { IfOk result (λ s. (o : List (Waiting Tree)) → stage_on s o ≡ AtAtom (waiting_of level) (Number (number_of value)) o) }
{
    let number = Box::new(alloc, Formula::Num(number_of(value)))?;
    Ok(State::Atom(level, number))
}

/// The state after a name.
fn name_read(alloc: Global, level: Level, name: &Name) -> Result<State, OutOfMemory>
    ensures { IfOk result (λ s. (o : List (Waiting Tree)) → stage_on s o ≡ AtAtom (waiting_of level) (Variable name.now) o) }
{
    let variable = Box::new(alloc, Formula::Var(*name))?;
    Ok(State::Atom(level, variable))
}

/// The state after a token where an operand may come.
fn operand_step(
    alloc: Global,
    level: Level,
    outer: &mut Vec<Level>,
    kind: &Kind,
) -> Result<Option<State>, OutOfMemory>
    requires { is_too_deep (AtOperand (waiting_of level) (outside outer.old.items)) kind.now ≡ false }
    ensures { IfOk result (λ r. option_map (λ s. stage_of s outer.new.items) r
        ≡ step trees (AtOperand (waiting_of level) (outside outer.old.items)) kind.now) }
{
    match kind {
        Kind::Number(value, _) => Ok(Some(number_read(alloc, level, *value)?)),
        Kind::Name(name) => Ok(Some(name_read(alloc, level, name)?)),
        Kind::Joins(Sign::Minus) => Ok(Some(State::Operand(minused(level)))),
        Kind::Open => Ok(Some(opened(level, outer)?)),
        _ => Ok(None),
    }
}

/// The state after a token that follows an atom.
fn atom_step(
    alloc: Global,
    level: Level,
    atom: Box<Formula>,
    outer: &mut Vec<Level>,
    kind: &Kind,
) -> Result<Option<State>, OutOfMemory>
    ensures { IfOk result (λ r. option_map (λ s. stage_of s outer.new.items) r
        ≡ step trees (AtAtom (waiting_of level) (tree_of atom.value) (outside outer.old.items)) kind.now) }
{
    match kind {
        Kind::Hat => Ok(Some(State::Exponent(level, atom, false))),
        Kind::Joins(_) | Kind::Close => {
            let factor = factor_done(alloc, level.minuses, level.multiplied, atom)?;
            after(alloc, level.base, level.added, factor, outer, kind)
        }
        _ => Ok(None),
    }
}

/// The state after a token where an exponent may come.
fn exponent_step(
    alloc: Global,
    level: Level,
    base: Box<Formula>,
    minus: bool,
    kind: &Kind,
) -> Result<Option<State>, OutOfMemory>
    requires { IsSmall kind.now }
    ensures { IfOk result (λ r. (o : List (Waiting Tree)) → option_map (λ s. stage_on s o) r
        ≡ step trees (AtExponent (waiting_of level) (tree_of base.value) minus o) kind.now) }
{
    match kind {
        Kind::Number(_, power) => {
            let raised = Box::new(alloc, Formula::Pow(base, exponent_of(minus, *power)))?;
            let factor = factor_done(alloc, level.minuses, level.multiplied, raised)?;
            Ok(Some(State::End(level.base, level.added, factor)))
        }
        Kind::Joins(Sign::Minus) => {
            if minus {
                return Ok(None);
            }
            Ok(Some(State::Exponent(level, base, true)))
        }
        _ => Ok(None),
    }
}

/// The state after the token, and `None` where no formula goes on with it.
///
/// # Errors
///
/// [`OutOfMemory`] where there is no memory for what is put together.
pub fn step(
    alloc: Global,
    state: State,
    outer: &mut Vec<Level>,
    kind: &Kind,
) -> Result<Option<State>, OutOfMemory>
    requires shallow { is_too_deep (stage_of state outer.old.items) kind.now ≡ false }
    requires small { IsSmall kind.now }
    ensures { IfOk result (λ r. option_map (λ s. stage_of s outer.new.items) r
        ≡ step trees (stage_of state outer.old.items) kind.now) }
{
    match state {
        State::Operand(level) => operand_step(alloc, level, outer, kind),
        State::Atom(level, atom) => atom_step(alloc, level, atom, outer, kind),
        State::End(base, added, factor) => after(alloc, base, added, factor, outer, kind),
        State::Exponent(level, base, minus) => exponent_step(alloc, level, base, minus, kind),
    }
}

/// What was read, and `None` where the text may not end here.
///
/// # Errors
///
/// [`OutOfMemory`] where there is no memory for what is put together.
#[tactic(auto, using(crate::proofs::Levels::never_finished))]
pub fn finish(
    alloc: Global,
    state: State,
    outer: &[Level],
) -> Result<Option<Box<Formula>>, OutOfMemory>
    ensures { IfOk result (λ r. option_map (λ f. tree_of f.value) r ≡ finish trees (stage_of state outer.now)) }
{
    if !outer.is_empty() {
        discard(state);
        return Ok(None);
    }
    match state {
        State::Atom(level, atom) => {
            let factor = factor_done(alloc, level.minuses, level.multiplied, atom)?;
            Ok(Some(put(alloc, level.added, factor)?))
        }
        State::End(_, added, factor) => Ok(Some(put(alloc, added, factor)?)),
        _ => Ok(None),
    }
}

/// Lets the state go.
pub fn discard(_state: State) {}
