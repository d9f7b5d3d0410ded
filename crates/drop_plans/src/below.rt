//! Paths below others.
ghost use Rattle.std.specs.Prelude.{◌≡◌, ◌<◌, ◌↔◌, [], IsTrue, length};
ghost use Rattle.move_paths.specs.Forest.{children_of};

use move_paths::Forest;

/// Whether a path has no path below it.
pub fn is_lowest(forest: &Forest, path: u32) -> bool
    requires { path < length forest.now.paths }
    ensures { IsTrue result ↔ (children_of forest.now.paths path ≡ []) }
{
    forest.children(path).is_empty()
}
