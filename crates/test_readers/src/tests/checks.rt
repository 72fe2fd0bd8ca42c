use std::fmt::Debug;
use std::process::Abort;

/// What was found is what is wanted. A call of this is proved sooner than `assert_eq!`.
pub fn same<T: PartialEq + Debug + Drop>(rt: &impl Abort, found: T, wanted: T) {
    assert_eq!(rt; found, wanted);
}
