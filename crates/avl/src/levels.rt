// The levels of a tree: how many there can be, and which side of a node has too many.
ghost use Rattle.std.specs.Prelude.{◌≡◌};
ghost use Rattle.avl.specs.Claims.{DeepIsLarge, KeepsInorder, Mends, SmallIsShallow};
ghost use Rattle.avl.specs.Levels.{leaning, level_over, most_levels};
ghost use Rattle.avl.specs.Tree.{mended};

// The most levels of a balanced tree of at most 1,024 nodes: a walk down the tree needs no more steps.
pub fn most_levels() -> u8
    ensures is { result ≡ most_levels }
    ensures shallow { SmallIsShallow result }
    ensures large { DeepIsLarge }
{
    14
}

// The levels of a node over two sides, as far as a u16 holds them.
pub fn level_over(left: u16, right: u16) -> u16
    ensures { result ≡ level_over left right }
{
    left.max(right).saturating_add(1)
}

// A node is balanced where its sides differ by no more levels.
const LARGEST_DIFFERENCE: u16 = 1;

// Which side of a node is too deep for balance.
#[derive(Clone, Copy)]
pub enum Lean {
    // Neither side.
    Even,
    Left,
    Right,
}

impl Lean {
    // The lean of a node over sides of so many levels, by which the node is to be mended.
    pub fn of(left: u16, right: u16) -> Lean
        ensures is { result ≡ leaning left right }
        ensures mends { Mends result left right }
        ensures keeps { KeepsInorder (mended result) }
    {
        if right.saturating_sub(left) > LARGEST_DIFFERENCE {
            Lean::Right
        } else if left.saturating_sub(right) > LARGEST_DIFFERENCE {
            Lean::Left
        } else {
            Lean::Even
        }
    }
}
