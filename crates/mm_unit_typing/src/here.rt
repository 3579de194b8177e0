// Where a statement stands.

use mm_classes::class::Ty;

/// Where a statement stands in its function.
#[derive(Clone, Copy, Debug, PartialEq, Eq)]
pub struct Here {
    /// How many variables are outside its scope.
    pub outer: usize,
    /// Whether a loop is around it.
    pub in_loop: bool,
    /// What its function gives.
    pub result: Ty,
}
