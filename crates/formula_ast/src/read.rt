ghost use Rattle.std.specs.Prelude.{◌≡◌, ◌≤◌, length, IfOk, IfErr, IfSome};
ghost use Rattle.line_text.specs.Memory.{GivesBy};
ghost use Rattle.formula_ast.specs.Trees.{HasExponents};
ghost use Rattle.formula_ast.specs.Views.{tree_of};
ghost use Rattle.formula_ast.specs.Grammar.{SpellsText};
ghost use Rattle.formula_ast.specs.Reading.{reading_of};
ghost use Rattle.formula_ast.specs.Refusals.{place_of};
ghost use Rattle.formula_ast.specs.declared.fault.FormulaFault.TheVariants.{OutOfMemory};

use crate::fault::FormulaFault;
use crate::formula::Formula;
use crate::lexer::{opens, split_token};
use crate::machine::{State, discard, finish, step};
use crate::rules::{node_count, refusal, syntax_place};
use line_text::skip_blanks;
use std::alloc::Global;

/// The formula that the text spells.
///
/// # Errors
///
/// The first token that breaks a rule, with its place within the text, or out of memory.
pub fn read_formula(alloc: Global, text: &[u8]) -> Result<Formula, FormulaFault>
    ensures exact { GivesBy tree_of OutOfMemory result (reading_of text.now) }
    ensures spelt { IfOk result (λ f. SpellsText text.now (tree_of f)) }
    ensures within { IfErr result (λ fault. IfSome (place_of fault) (λ at. at ≤ length text.now)) }
    ensures exponents { IfOk result (λ f. HasExponents (tree_of f)) }
{
    read_whole(alloc, text)
}

// The formula that the text spells, read token by token.
fn read_whole(alloc: Global, text: &[u8]) -> Result<Formula, FormulaFault>
    ensures { GivesBy tree_of OutOfMemory result (reading_of text.now) }
{
    let mut state = State::first();
    let mut outer = Vec::new(alloc);
    let mut nodes = 0;
    let mut end = 0;
    let mut rest = skip_blanks(text);
    while !rest.is_empty() {
        let at = text.len() - rest.len();
        let (token, after) = split_token(rest);
        let refused = refusal(&state, nodes, at, &token.kind, opens(after));
        if let Some(fault) = refused {
            discard(state);
            return Err(fault);
        }
        let place = syntax_place(&state, at, token.len, &token.kind);
        let count = node_count(&state, &token.kind);
        let Some(next) = step(alloc, state, &mut outer, &token.kind)? else {
            return Err(FormulaFault::Syntax(place));
        };
        state = next;
        nodes += count;
        end = at + token.len;
        rest = after;
    }
    let Some(formula) = finish(alloc, state, outer.as_slice())? else {
        return Err(FormulaFault::Syntax(end));
    };
    Ok(Box::into_inner(formula))
}
