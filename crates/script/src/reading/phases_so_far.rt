ghost use Rattle.std.specs.Prelude.{◌≡◌, ◌++◌, ◌∷◌, [], IfOk, OnOk};
ghost use Rattle.script.specs.NextLine.{with_next};

use crate::reading::line_kind::LineKind;
use crate::{Line, Phase, Script};
use sfs_base::NoMemory;
use std::alloc::Global;
use std::marker::Model;
use std::mem;

// The phases of a script that have ended so far, and the lines of the one that has not. Contracts
// see the pair of them.
#[derive(Drop)]
pub struct PhasesSoFar {
    alloc: Global,
    phases: Vec<Phase>,
    lines: Vec<Line>,
}

impl Model for PhasesSoFar {
    ghost use Rattle.std.specs.Prelude.{List};
    ghost use Rattle.script.specs.declared.commands.Line.{Line};

    ghost Value = { List (List Line) × List Line };

    ghost view = { λ so_far. (so_far.phases.items, so_far.lines.items) };
}

impl PhasesSoFar {
    // No line yet.
    pub fn new(alloc: Global) -> PhasesSoFar
        ensures { result ≡ ([], []) }
    {
        PhasesSoFar {
            alloc,
            phases: Vec::new(alloc),
            lines: Vec::new(alloc),
        }
    }

    // Takes the next line, by what it is.
    pub fn add(&mut self, line_kind: LineKind) -> Result<(), NoMemory>
        ensures { OnOk result (self.new ≡ with_next line_kind self.old) }
    {
        match line_kind {
            LineKind::Skipped => {}
            LineKind::Ends => {
                let lines = mem::replace(&mut self.lines, Vec::new(self.alloc));
                self.phases.push(Phase::new(lines))?;
            }
            LineKind::Does { line } => self.lines.push(line)?,
        }
        Ok(())
    }

    // The script, whose last phase has ended.
    pub fn end(self) -> Result<Script, NoMemory>
        ensures { IfOk result (λ script. script ≡ self.0 ++ self.1 ∷ []) }
    {
        let mut phases = self.phases;
        phases.push(Phase::new(self.lines))?;
        Ok(Script::new(phases))
    }
}
