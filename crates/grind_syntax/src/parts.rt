//! The parts of a name, or the terms of a list.
ghost use Rattle.std.specs.Prelude.{◌≡◌, ◌≤◌};
ghost use Rattle.grind_syntax.specs.Depth.{trees_depth};

use grind_grammar::Tree;

// Trees in order, how deep the deepest is, and whether each part was built.
#[derive(Drop)]
pub(crate) struct Parts {
    pub(crate) trees: Vec<Tree>,
    pub(crate) depth: u8,
    pub(crate) complete: bool,
    ghost is_depth: { trees_depth trees.items ≡ depth },
    ghost is_low: { depth ≤ 200 },
}
