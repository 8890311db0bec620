// Made scripts, with ample memory.
use crate::helpers::{got, same};
use made_script::made;
use std::process::Abort;

// How many lines each phase of a script has.
fn assert_lines(rt: &impl Abort, script: &script::Script, wanted: &[usize; 3]) {
    let phases = script.phases();
    same(rt, &phases.len(), &3);
    for (phase, count) in phases.iter().zip(wanted) {
        same(rt, &phase.lines().len(), count);
    }
}

#[test]
fn a_made_script_has_three_phases(rt: HostRuntime) {
    let script = got(&rt, made(rt.alloc(), 1, 4, 1));
    assert_lines(&rt, &script, &[1, 12, 1]);
    let script = got(&rt, made(rt.alloc(), 4_294_967_295, 100, 16));
    assert_lines(&rt, &script, &[16, 4800, 16]);
}
