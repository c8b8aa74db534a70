// A whole script.
ghost use Rattle.std.specs.Prelude.{◌≡◌};
ghost use Rattle.script_reader.specs.Drafts.{Ends};
ghost use Rattle.script_reader.specs.Laws.{Accepts, ReadsBack};
ghost use Rattle.script_reader.specs.Reading.{without_return, Cuts, read_of};

use crate::drafts::Draft;
use crate::scripts::Script;
use script::mistakes::ScriptError;
use std::alloc::Global;

fn without_return(line: &[u8]) -> &[u8]
    ensures { result.now ≡ without_return line.now }
{
    line.strip_suffix(b"\r").unwrap_or(line)
}

// The first line and what stands after its line feed, if it has one. `split` would give each line, but
// the last one keeps its carriage return, and only the last.
fn split_line(text: &[u8]) -> Option<(&[u8], &[u8])>
    ensures { Cuts result text.now }
{
    let end = text.iter().position(|b| *b == b'\n')?;
    Some((without_return(&text[..end]), &text[end + 1..]))
}

// A function of its own, since each of its four ways out would owe all three clauses of `read_script`.
fn read_lines(heap: Global, text: &[u8]) -> Result<Script, ScriptError>
    ensures { Ends result (read_of text.now) }
{
    let mut draft = Draft::new();
    let mut rest = text;
    while let Some((line, after)) = split_line(rest) {
        draft.take(heap, line)?;
        rest = after;
    }
    draft.take(heap, rest)?;
    draft.finish()
}

// Reads a whole script, or tells the first line that is wrong.
pub fn read_script(heap: Global, text: &[u8]) -> Result<Script, ScriptError>
    ensures reads { Ends result (read_of text.now) }
    ensures accepts { Accepts result text.now }
    ensures reads_back { ReadsBack result }
{
    read_lines(heap, text)
}
