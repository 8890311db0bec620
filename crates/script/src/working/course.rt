ghost use Rattle.std.specs.Prelude.{◌≡◌, IsSome, MatchResult};
ghost use Rattle.script.specs.Walks.{Done, go_on, started, taken, call_of, commands_of};

use crate::working::steps::{Walk, after, begun, call_of};
use crate::{Line, Phase};
use sfs_base::NoMemory;
use std::marker::Model;
use tree_laws::{Call, Reply};

/// A worker at its commands in a phase. Contracts see where it stands: what is left of the command
/// at hand, and the commands behind it.
#[derive(Drop)]
pub struct Course<'a> {
    number: u16,
    leg: Walk<'a>,
    // The lines behind the command at hand, also those of other workers.
    lines: &'a [Line],
}

impl<'a> Model for Course<'a> {
    ghost use Rattle.script.specs.Walks.{Position, commands_of};
    ghost use Rattle.script.specs.Workers.{walk_state_of};

    ghost Value = { Position };

    ghost view = { λ course. record {
      walk = walk_state_of course.leg;
      later = commands_of course.number course.lines.now;
    } };
}

impl<'a> Course<'a> {
    /// A worker before its first call in a phase.
    pub fn new(number: u16, phase: &'a Phase) -> Course<'a>
        ensures { result ≡ started (commands_of number phase.now) }
    {
        first_of(number, phase.lines())
    }

    /// The next call, or None at the end. Memory is refused for a call alone.
    pub fn next_call(&self) -> Result<Option<Call>, NoMemory>
        ensures { MatchResult result (λ call. call ≡ call_of self.now.walk) (λ fault. IsSome (call_of self.now.walk)) }
    {
        call_of(self.leg)
    }

    /// Takes the reply to the next call.
    pub fn take(&mut self, reply: &Reply)
        ensures { self.new ≡ taken self.old reply.now }
    {
        self.leg = after(self.leg, reply);
        match self.leg {
            Walk::Done => *self = first_of(self.number, self.lines),
            _ => {}
        }
    }
}

// A worker at the first of its commands in these lines.
fn first_of(number: u16, lines: &[Line]) -> Course<'_>
    ensures { result ≡ go_on Done (commands_of number lines.now) }
{
    for (place, line) in lines.iter().enumerate() {
        if line.worker == number {
            return Course {
                number,
                leg: begun(&line.command),
                lines: &lines[place + 1..],
            };
        }
    }
    Course {
        number,
        leg: Walk::Done,
        lines: &lines[lines.len()..],
    }
}
