// What tests assert by, and how they take answers: one call each, so that a test has no branches of its own.
ghost use Rattle.std.specs.Prelude.{◌≡◌, true, Ok, Some};

use std::fmt::Debug;
use std::process::Abort;

// Asserts that a value is the one that is wanted.
pub(crate) fn same<T: PartialEq + Debug>(rt: &impl Abort, is: &T, wanted: &T) {
    assert_eq!(rt; *is, *wanted);
}

// Asserts that a list has these items.
pub(crate) fn same_list<T: PartialEq + Debug>(rt: &impl Abort, is: &[T], wanted: &[T]) {
    assert_eq!(rt; is, wanted);
}

// Asserts that something holds.
pub(crate) fn holds(rt: &impl Abort, is: bool)
    ensures { is ≡ true }
{
    assert!(rt; is);
}

// The value of an answer that is no error.
pub(crate) fn got<T, E: Drop>(rt: &impl Abort, answer: Result<T, E>) -> T
    ensures { answer ≡ Ok result }
{
    match answer {
        Ok(value) => value,
        Err(_) => panic!(rt; "an error"),
    }
}

// The value that is there.
pub(crate) fn some<T>(rt: &impl Abort, value: Option<T>) -> T
    ensures { value ≡ Some result }
{
    match value {
        Some(value) => value,
        None => panic!(rt; "nothing"),
    }
}
