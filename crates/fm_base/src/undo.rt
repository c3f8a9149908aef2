ghost use Rattle.std.specs.Prelude.{◌≡◌, ◌<◌, ◌++◌, ◌∷◌, [], List, ℕ, length, take, slice_get, Some, IfOk, OnOk, OnErr};

use crate::ids::Memory;

/// What can go back to an earlier content. Levels are opened by `mark` and numbered from 0. Where a type
/// registers terms, its content is the list of facts that it read, and registered terms stay.
pub trait Undo {
    ghost Content: { Type 0 };

    ghost content: { Self → Content };

    ghost levels: { Self → List Content };

    /// Opens a level and answers its number.
    fn mark(&mut self) -> Result<usize, Memory>
        ensures number { IfOk result (λ n. n ≡ length (levels self.old)) }
        ensures opened { OnOk result (levels self.new ≡ levels self.old ++ content self.old ∷ []) }
        ensures same { content self.new ≡ content self.old }
        ensures err { OnErr result (levels self.new ≡ levels self.old) };

    /// Goes back to the content at which `level` was opened, and closes that level and all above it. It
    /// takes no memory.
    fn undo_to(&mut self, level: usize)
        requires { level < length (levels self.old) }
        ensures levels { levels self.new ≡ take level (levels self.old) }
        ensures content { slice_get (levels self.old) level ≡ Some (content self.new) };
}
