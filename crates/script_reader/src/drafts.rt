// A script as far as it is read: which lines may come next.
ghost use Rattle.std.specs.Prelude.{◌≡◌, ◌+◌, ◌^◌, ◌<◌};
ghost use Rattle.std.specs.Borrow.{sem};
ghost use Rattle.script_reader.specs.Drafts.{unwritten, mistake, Takes, Ends, opens_of, opened, with_capacity, with_cost, with_call, finish};
ghost use Rattle.script_reader.specs.Reading.{line_step};

use crate::scripts::{Opening, Script};
use script::calls::{Call, CostKind};
use script::lines::{Line, read_line};
use script::mistakes::{Expected, Mistake, ScriptError};
use std::alloc::Global;
use std::marker::Model;

#[derive(Drop)]
pub(crate) struct Draft {
    // How many lines were read, the one that is being taken included.
    lines: usize,
    // What they say, once the line was read that opens the script.
    script: Option<Script>,
}

impl Model for Draft {
    ghost use Rattle.script_reader.specs.Drafts.{Progress, draft};

    ghost Value = { Progress };

    ghost view = { λ d. draft d.lines d.script };
}

impl Draft {
    ghost use Rattle.script_reader.specs.Lending.{LendsScript, HasScript};

    pub(crate) fn new() -> Draft
        ensures none { result.lines ≡ 0 }
        ensures value { result.so_far ≡ unwritten }
    {
        Draft {
            lines: 0,
            script: None,
        }
    }

    // The line that is being taken is not what was expected.
    fn wrong(&self, expected: Expected) -> ScriptError
        ensures { result ≡ mistake self.now.lines expected }
    {
        ScriptError::Mistake(Mistake {
            line: self.lines,
            expected,
        })
    }

    // The script that the earlier lines make, once one of them opens it. `as_mut` and `ok_or` in place of
    // the `match` were tried: the check does not follow the loan through them.
    fn opened_script(&mut self) -> Result<&mut Script, ScriptError>
        ensures* writes_back { sem 𝓛 (LendsScript self.entry result) }
        ensures value { HasScript result self.old }
    {
        let unopened = self.wrong(Expected::Opening);
        match &mut self.script {
            Some(script) => Ok(script),
            None => Err(unopened),
        }
    }

    fn open(&mut self, heap: Global, opening: Opening) -> Result<(), ScriptError>
        ensures { Takes result self.old.lines (opened self.old.so_far (opens_of opening)) self.new }
    {
        if self.script.is_some() {
            return Err(self.wrong(Expected::OneOpening));
        }
        self.script = Some(Script {
            opening,
            capacity: None,
            cost: None,
            calls: Vec::new(heap),
        });
        Ok(())
    }

    // `set_capacity` and `set_cost` are not one function: they test and set different fields.
    fn set_capacity(&mut self, units: u64) -> Result<(), ScriptError>
        ensures { Takes result self.old.lines (with_capacity self.old.so_far units) self.new }
    {
        let script = self.opened_script()?;
        if script.capacity.is_some() || script.cost.is_some() || !script.calls.is_empty() {
            return Err(self.wrong(Expected::EarlierCapacity));
        }
        script.capacity = Some(units);
        Ok(())
    }

    fn set_cost(&mut self, kind: CostKind) -> Result<(), ScriptError>
        ensures { Takes result self.old.lines (with_cost self.old.so_far kind) self.new }
    {
        let script = self.opened_script()?;
        if script.cost.is_some() || !script.calls.is_empty() {
            return Err(self.wrong(Expected::EarlierCost));
        }
        script.cost = Some(kind);
        Ok(())
    }

    fn add_call(&mut self, call: Call) -> Result<(), ScriptError>
        ensures { Takes result self.old.lines (with_call self.old.so_far call) self.new }
    {
        self.opened_script()?.calls.push(call)?;
        Ok(())
    }

    // Takes the next line.
    pub(crate) fn take(&mut self, heap: Global, line: &[u8]) -> Result<(), ScriptError>
        requires { self.old.lines + 1 < 2 ^ 64 }
        ensures { Takes result (self.old.lines + 1) (line_step self.old.so_far line.now) self.new }
    {
        self.lines += 1;
        match read_line(line).map_err(|expected| self.wrong(expected))? {
            Line::Nothing => Ok(()),
            Line::Map(path) => self.open(heap, Opening::Map(String::from_str(heap, path)?)),
            Line::Grid(yard) => self.open(heap, Opening::Grid(yard)),
            Line::Capacity(units) => self.set_capacity(units),
            Line::Cost(kind) => self.set_cost(kind),
            Line::Makes(call) => self.add_call(call),
        }
    }

    // The script, where there are no more lines.
    pub(crate) fn finish(self) -> Result<Script, ScriptError>
        ensures { Ends result (finish self.lines self.so_far) }
    {
        let unopened = self.wrong(Expected::SomeOpening);
        self.script.ok_or(unopened)
    }
}
