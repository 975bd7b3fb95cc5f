//! What may be wrong with a field.

/// The first fault of a field, and its place.
#[derive(Clone, Copy, Debug, PartialEq, Eq)]
pub enum Fault {
    /// The field that begins here isn't whole.
    Short { at: usize },
    /// The field that begins here breaks its rule.
    Wrong { at: usize },
}
