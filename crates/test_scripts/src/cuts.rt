// Cuts, kept as a table of stamps.
use crate::helpers::{got, same};
use flush_core::Cut;

#[test]
fn a_stamp_is_raised_and_never_lowered(rt: HostRuntime) {
    let mut cut = Cut::new(rt.alloc());
    same(&rt, &cut.get(5), &0);
    got(&rt, cut.raise(5, 7));
    got(&rt, cut.raise(5, 3));
    got(&rt, cut.raise(2, 9));
    same(&rt, &cut.get(5), &7);
    same(&rt, &cut.get(4), &0);
    same(&rt, &cut.get(2), &9);
    same(&rt, &cut.get(6), &0);
}
