// What the tests expect of an answer.
use std::fmt::Debug;
use std::process::Abort;

// The answer is the one wanted.
// kept: a function, since each `assert_eq!` written out is proved by itself, with what it would print
pub(crate) fn equal<X: PartialEq + Debug + Copy>(rt: &impl Abort, found: X, wanted: X) {
    assert_eq!(rt; found, wanted);
}
