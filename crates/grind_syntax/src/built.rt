//! A tree that is no deeper than the limit.
ghost use Rattle.std.specs.Prelude.{◌≡◌, ◌≤◌};
ghost use Rattle.grind_syntax.specs.Depth.{tree_depth};

use grind_grammar::Tree;

// A tree, and how deep it is.
#[derive(Drop)]
pub(crate) struct Built {
    pub(crate) tree: Tree,
    pub(crate) depth: u8,
    ghost is_depth: { tree_depth tree ≡ depth },
    ghost is_low: { depth ≤ 200 },
}
