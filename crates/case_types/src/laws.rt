//! Laws of the definitions: the leaves of a tree cover the domain.

ghost use Rattle.case_types.specs.Grid.Cells.{TreesCover};

/// Every state lies in a leaf that doesn't miss, whatever the tree: halving covers.
pub fn trees_cover()
    ensures { TreesCover }
{}
