//! How a pass is split, and how two are joined.

ghost use Rattle.turnstile.specs.Steps.{view_after_join, split_view, spent_view, view_after_split};

use crate::view::View;
use atomic_table::{Join, Split};

/// How a view is split in two.
pub(crate) struct Splits;

impl Split<View> for Splits {
    ghost left = { view_after_split };

    ghost right = { split_view };
}

/// How two views are joined, and what is left of the second.
pub(crate) struct Joins;

impl Join<View> for Joins {
    ghost both = { view_after_join };

    ghost spent = { spent_view };
}
