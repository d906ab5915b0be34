ghost use Rattle.std.specs.Prelude.{◌≡◌, option_map};
ghost use Rattle.program_words.specs.Words.{option_taken, rows_taken, start_taken, rows_then_start, start_then_rows, options_of};
ghost use Rattle.program_words.specs.Grammar.{are_same};
ghost use Rattle.program_words.specs.Views.{texts_of, as_taken, as_options};

/// What the two options say.
#[derive(Clone, Copy)]
pub(crate) struct Options<'a> {
    pub(crate) rows: &'a [u8],
    pub(crate) start: &'a [u8],
}

/// What an option says, and the words after it.
#[derive(Clone, Copy)]
struct Taken<'a> {
    value: &'a [u8],
    rest: &'a [String],
}

/// The option that stands first, if it is the word `name`, followed by its value, or a word that begins with `head`.
fn option_taken<'a>(name: &[u8], head: &[u8], words: &'a [String]) -> Option<Taken<'a>>
    ensures { option_map as_taken result ≡ option_taken name.now head.now (texts_of words.now) }
{
    let (word, rest) = words.split_first()?;
    if word.as_bytes() == name {
        let (value, rest) = rest.split_first()?;
        return Some(Taken {
            value: value.as_bytes(),
            rest,
        });
    }
    let value = word.as_bytes().strip_prefix(head)?;
    Some(Taken { value, rest })
}

/// The number of rows, if it stands first, and the words after it.
fn rows_taken<'a>(words: &'a [String]) -> Option<Taken<'a>>
    ensures { option_map as_taken result ≡ rows_taken (texts_of words.now) }
{
    option_taken(b"--rows", b"--rows=", words)
}

/// The start, if it stands first, and the words after it.
fn start_taken<'a>(words: &'a [String]) -> Option<Taken<'a>>
    ensures { option_map as_taken result ≡ start_taken (texts_of words.now) }
{
    option_taken(b"--start", b"--start=", words)
}

/// The options, if the words are the number of rows, the start and nothing else.
fn rows_then_start<'a>(words: &'a [String]) -> Option<Options<'a>>
    ensures { option_map as_options result ≡ rows_then_start (texts_of words.now) }
{
    let rows = rows_taken(words)?;
    let start = start_taken(rows.rest)?;
    if !start.rest.is_empty() {
        return None;
    }
    Some(Options {
        rows: rows.value,
        start: start.value,
    })
}

/// The options, if the words are the start, the number of rows and nothing else.
fn start_then_rows<'a>(words: &'a [String]) -> Option<Options<'a>>
    ensures { option_map as_options result ≡ start_then_rows (texts_of words.now) }
{
    let start = start_taken(words)?;
    let rows = rows_taken(start.rest)?;
    if !rows.rest.is_empty() {
        return None;
    }
    Some(Options {
        rows: rows.value,
        start: start.value,
    })
}

/// The options, if the words are these, in either order, and nothing else.
pub(crate) fn options_of<'a>(words: &'a [String]) -> Option<Options<'a>>
    ensures { option_map as_options result ≡ options_of (texts_of words.now) }
{
    match rows_then_start(words) {
        Some(options) => Some(options),
        None => start_then_rows(words),
    }
}

/// Whether both say the same.
pub(crate) fn are_same(a: &Options<'_>, b: &Options<'_>) -> bool
    ensures { result ≡ are_same (as_options a.now) (as_options b.now) }
{
    a.rows == b.rows && a.start == b.start
}
