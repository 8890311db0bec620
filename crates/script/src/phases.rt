ghost use Rattle.std.specs.Prelude.{◌≡◌, length, slice_get};
ghost use Rattle.std.specs.Option.{option_copied};

use crate::Line;
use std::marker::Model;

/// The lines of a script between two joins of the workers. Contracts see the list of them.
#[derive(Drop)]
pub struct Phase {
    lines: Vec<Line>,
}

impl Model for Phase {
    ghost use Rattle.std.specs.Prelude.{List};
    ghost use Rattle.script.specs.declared.commands.Line.{Line};

    ghost Value = { List Line };

    ghost view = { λ phase. phase.lines.items };
}

impl Phase {
    /// The phase of these lines. It takes no memory.
    pub fn new(lines: Vec<Line>) -> Phase
        ensures { result ≡ lines.items }
    {
        Phase { lines }
    }

    /// The lines, in order.
    pub fn lines(&self) -> &[Line]
        ensures { result.now ≡ self.now }
    {
        &self.lines
    }
}

/// A script: contracts see the list of its phases.
#[derive(Drop)]
pub struct Script {
    phases: Vec<Phase>,
}

impl Model for Script {
    ghost use Rattle.std.specs.Prelude.{List};
    ghost use Rattle.script.specs.declared.commands.Line.{Line};

    ghost Value = { List (List Line) };

    ghost view = { λ script. script.phases.items };
}

impl Script {
    /// The script of these phases. It takes no memory.
    pub fn new(phases: Vec<Phase>) -> Script
        ensures { result ≡ phases.items }
    {
        Script { phases }
    }

    /// The phases, in order.
    pub fn phases(&self) -> &[Phase]
        ensures { result.now ≡ self.now }
    {
        &self.phases
    }
}
