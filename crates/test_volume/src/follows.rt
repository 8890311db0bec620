// Whether a history follows its script: in each phase each worker makes the calls of its own commands, one after another, and no other call, and the next
// phase begins where all of them have ended.
use crate::helpers::{got, holds, same_list, some};
use crate::judged::CORES;
use script::{Course, Phase, Script, text};
use std::alloc::Global;
use std::process::Abort;
use tree_laws::{Entry, History};

// Each worker at its first command of a phase.
fn courses_of<'a>(rt: &impl Abort, alloc: Global, phase: &'a Phase) -> Vec<Course<'a>> {
    let mut courses = Vec::new(alloc);
    for number in 0..CORES {
        got(rt, courses.push(Course::new(number as u16, phase)));
    }
    courses
}

// Whether some worker has a call to make.
fn go_on(rt: &impl Abort, courses: &[Course]) -> bool {
    for course in courses {
        if got(rt, course.next_call()).is_some() {
            return true;
        }
    }
    false
}

// The call that an entry's worker has to make, answered as the entry is.
fn due_entry(rt: &impl Abort, courses: &mut [Course], entry: &Entry) -> Entry {
    let course = some(rt, courses.get_mut(entry.core.0 as usize));
    let call = some(rt, got(rt, course.next_call()));
    course.take(&entry.reply);
    Entry {
        stamp: entry.stamp,
        core: entry.core,
        call,
        reply: got(rt, entry.reply.copy()),
        ack: entry.ack,
    }
}

// The calls that workers have to make where they are answered as in a history, which ends where they do.
fn due_of(rt: &impl Abort, alloc: Global, script: &Script, history: &History) -> History {
    let mut due = Vec::new(alloc);
    let mut cursor = history.first();
    for phase in script.phases() {
        let mut courses = courses_of(rt, alloc, phase);
        for _ in 0..=history.len() {
            if !go_on(rt, courses.as_slice()) {
                break;
            }
            let entry = some(rt, history.next(&mut cursor));
            got(rt, due.push(due_entry(rt, courses.as_mut_slice(), entry)));
        }
    }
    holds(rt, history.next(&mut cursor).is_none());
    History::from_entries(due)
}

/// Asserts that a history follows a script.
pub(crate) fn assert_follows(rt: &impl Abort, alloc: Global, script: &Script, history: &History) {
    let due = due_of(rt, alloc, script, history);
    let due = got(rt, text(alloc, &due));
    let is = got(rt, text(alloc, history));
    same_list(rt, is.as_slice(), due.as_slice());
}
