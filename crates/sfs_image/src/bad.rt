/// Bytes that are no value of a format. `at` is the first wrong byte or field, counted from the
/// begin of the bytes.
#[derive(Clone, Copy, Debug, PartialEq, Eq)]
pub struct Bad {
    pub at: u32,
}
