//! What the first word of a line says of it.

ghost use Rattle.std.specs.Prelude.{◌≡◌};
ghost use Rattle.script_lines.specs.Queries.{query_word};
ghost use Rattle.script_lines.specs.Commands.{asking, verb_of};

/// What a word that begins a query asks for.
#[derive(Clone, Copy, Debug, PartialEq, Eq)]
pub(crate) enum QueryWord {
    Value,
    Variance,
    Covariance,
    Correlation,
    Sensitivity,
    Degrees,
    Report,
    Expanded,
    Decide,
    Budget,
    Dump,
}

const VALUE: &[u8] = b"value";

const VAR: &[u8] = b"var";

const COV: &[u8] = b"cov";

const R: &[u8] = b"r";

const SENS: &[u8] = b"sens";

const DOF: &[u8] = b"dof";

const REPORT: &[u8] = b"report";

const EXPANDED: &[u8] = b"expanded";

const DECIDE: &[u8] = b"decide";

const BUDGET: &[u8] = b"budget";

const DUMP: &[u8] = b"dump";

/// What the word asks for, where it begins a query.
pub(crate) fn query_word(word: &[u8]) -> Option<QueryWord>
    ensures { result ≡ query_word word.now }
{
    if word == VALUE {
        return Some(QueryWord::Value);
    }
    if word == VAR {
        return Some(QueryWord::Variance);
    }
    if word == COV {
        return Some(QueryWord::Covariance);
    }
    if word == R {
        return Some(QueryWord::Correlation);
    }
    if word == SENS {
        return Some(QueryWord::Sensitivity);
    }
    if word == DOF {
        return Some(QueryWord::Degrees);
    }
    if word == REPORT {
        return Some(QueryWord::Report);
    }
    if word == EXPANDED {
        return Some(QueryWord::Expanded);
    }
    if word == DECIDE {
        return Some(QueryWord::Decide);
    }
    if word == BUDGET {
        return Some(QueryWord::Budget);
    }
    if word == DUMP {
        return Some(QueryWord::Dump);
    }
    None
}

/// What a line does, by its first word.
#[derive(Clone, Copy, Debug, PartialEq, Eq)]
pub(crate) enum Verb {
    Set,
    Remove,
    Undo,
    Redo,
    Mark,
    Restore,
    At,
    /// A query to the present sheet.
    Ask(QueryWord),
    /// A row to add, and whatever begins no other command.
    Row,
}

pub(crate) const SET: &[u8] = b"set";

const REMOVE: &[u8] = b"remove";

const UNDO: &[u8] = b"undo";

const REDO: &[u8] = b"redo";

const MARK: &[u8] = b"mark";

const RESTORE: &[u8] = b"restore";

const AT: &[u8] = b"at";

/// What a line does whose first word is this one.
pub(crate) fn verb_of(word: &[u8]) -> Verb
    ensures { result ≡ verb_of word.now }
{
    if word == SET {
        return Verb::Set;
    }
    if word == REMOVE {
        return Verb::Remove;
    }
    if word == UNDO {
        return Verb::Undo;
    }
    if word == REDO {
        return Verb::Redo;
    }
    if word == MARK {
        return Verb::Mark;
    }
    if word == RESTORE {
        return Verb::Restore;
    }
    if word == AT {
        return Verb::At;
    }
    match query_word(word) {
        Some(asked) => Verb::Ask(asked),
        None => Verb::Row,
    }
}
