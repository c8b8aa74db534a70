// What one line of a script says.
ghost use Rattle.std.specs.Prelude.{◌≡◌};
ghost use Rattle.script.specs.Words.{words_of};
ghost use Rattle.script.specs.Arguments.{numeral_of, one_word, one_number, number_first, lent, lent_rest};
ghost use Rattle.script.specs.Lines.{comment, says, map_says, grid_says, verb_says, seen};

use crate::calls::{Call, CostKind};
use crate::mistakes::Expected;
use crate::numbers::number;
use crate::verbs::Verb;
use crate::words::split_word;
use crate::yards::Yard;
use std::str::from_utf8;

// A line as it stands, whatever lines stand before it.
#[derive(Clone, Copy)]
pub enum Line<'a> {
    // A blank line or a comment.
    Nothing,
    Map(&'a str),
    Grid(Yard),
    Capacity(u64),
    Cost(CostKind),
    Makes(Call),
}

fn begins_comment(word: &[u8]) -> bool
    ensures { result ≡ comment word.now }
{
    matches!(word, [b'#', ..])
}

fn numeral(word: &[u8]) -> Result<u64, Expected>
    ensures { result ≡ numeral_of word.now }
{
    number(word).ok_or(Expected::Number)
}

// The only word of `args`; here and below, `usage` is what was expected where there are fewer or more.
// `usage` stays a parameter: a struct with the words would be made for each call, and taken apart in it.
fn only_word(usage: Expected, args: &[u8]) -> Result<&[u8], Expected>
    ensures { lent result ≡ one_word usage (words_of args.now) }
{
    match split_word(args) {
        Some((word, rest)) if split_word(rest).is_none() => Ok(word),
        _ => Err(usage),
    }
}

fn only_number(usage: Expected, args: &[u8]) -> Result<u64, Expected>
    ensures { result ≡ one_number usage (words_of args.now) }
{
    numeral(only_word(usage, args)?)
}

// The number that stands first, and what stands after it.
fn first_number(usage: Expected, args: &[u8]) -> Result<(u64, &[u8]), Expected>
    ensures { lent_rest result ≡ number_first usage (words_of args.now) }
{
    let (word, rest) = split_word(args).ok_or(usage)?;
    Ok((numeral(word)?, rest))
}

fn map_line(args: &[u8]) -> Result<Line<'_>, Expected>
    ensures { seen result ≡ map_says (words_of args.now) }
{
    let word = only_word(Expected::MapArguments, args)?;
    let path = from_utf8(word).map_err(|_| Expected::Text)?;
    Ok(Line::Map(path))
}

fn grid_line(args: &[u8]) -> Result<Line<'_>, Expected>
    ensures { seen result ≡ grid_says (words_of args.now) }
{
    let usage = Expected::GridArguments;
    let (rows, rest) = first_number(usage, args)?;
    let (columns, rest) = first_number(usage, rest)?;
    let (seconds, rest) = first_number(usage, rest)?;
    let climb = only_number(usage, rest)?;
    Ok(Line::Grid(Yard {
        rows,
        columns,
        seconds,
        climb,
    }))
}

// What a line says that begins with `verb`. Each has an arm of its own: a helper would be handed its case and its usage, and be no shorter.
fn verb_line(verb: Verb, args: &[u8]) -> Result<Line<'_>, Expected>
    ensures { seen result ≡ verb_says verb (words_of args.now) }
{
    match verb {
        Verb::Map => map_line(args),
        Verb::Grid => grid_line(args),
        Verb::Capacity => {
            let units = only_number(Expected::CapacityArguments, args)?;
            Ok(Line::Capacity(units))
        }
        Verb::Cost => {
            let word = only_word(Expected::CostArguments, args)?;
            Ok(Line::Cost(CostKind::try_from(word)?))
        }
        Verb::Shut => {
            let arc = only_number(Expected::ShutArguments, args)?;
            Ok(Line::Makes(Call::Shut(arc)))
        }
        Verb::Reopen => {
            let arc = only_number(Expected::ReopenArguments, args)?;
            Ok(Line::Makes(Call::Reopen(arc)))
        }
        Verb::Arcs => {
            let point = only_number(Expected::ArcsArguments, args)?;
            Ok(Line::Makes(Call::Arcs(point)))
        }
    }
}

// What a line says by itself, or what it should have been.
pub fn read_line(line: &[u8]) -> Result<Line<'_>, Expected>
    ensures { seen result ≡ says (words_of line.now) }
{
    let Some((first, args)) = split_word(line) else {
        return Ok(Line::Nothing);
    };
    if begins_comment(first) {
        return Ok(Line::Nothing);
    }
    verb_line(Verb::try_from(first)?, args)
}
