// Classes of cells, in a part of a lent buffer: a parent word for each of the first `top` cells, never
// above the cell itself. A cell that is its own parent names its class.
#![tactic(auto)]

ghost use Rattle.std.specs.Prelude.{◌≡◌, ◌<◌, ◌≤◌, length};
ghost use Rattle.classes.specs.Forest.{Lower, Root};
ghost use Rattle.classes.specs.Classes.{Found, Joined, Apart};

// The name of the class of `i`. On the way each second cell gets its parent's parent.
pub fn find(words: &mut [u64], top: usize, i: usize) -> usize
    requires { Lower words.old top × (i < top) }
    ensures { Found words.old top i result words.new }
{
    let mut cur = i;
    let mut parent = words[cur] as usize;
    while parent != cur {
        let far = words[parent];
        words[cur] = far;
        cur = far as usize;
        parent = words[cur] as usize;
    }
    cur
}

// The classes that `a` and `b` name become one, named by the lower.
pub fn join(words: &mut [u64], top: usize, a: usize, b: usize)
    requires { Lower words.old top × (a < top) × (b < top) × Root words.old a a × Root words.old b b × (a ≡ b → ⊥) }
    ensures { Joined words.old top a b words.new }
{
    words[a.max(b)] = a.min(b) as u64;
}

// Each of the first `top` cells is a class of its own. By index, since of what an adapter of `iter_mut`
// leaves nothing is known.
pub fn apart(words: &mut [u64], top: usize)
    requires { top ≤ length words.old }
    ensures { Apart words.old top words.new }
{
    for i in 0..top {
        words[i] = i as u64;
    }
}
