//! Moving a head among others.
ghost use Rattle.std.specs.Prelude.{◌≡◌, ◌<◌, ◌≤◌, insert, length, get_or, remove};
ghost use Rattle.aa_ordered.specs.declared.leaves.Head.{Head};

use super::Head;

/// Moves the head at index `from` down to index `to`, and those between up by one.
pub(crate) fn move_down(heads: &mut [Head], from: usize, to: usize)
    requires { (to ≤ from) × (from < length heads.old) }
    ensures { (d : Head) → heads.new
        ≡ insert (remove heads.old from) to (get_or heads.old from d) }
{
    let head = heads[from];
    heads.copy_within(to..from, to + 1);
    heads[to] = head;
}

/// Moves the head at index `from` up to index `to`, and those between down by one.
pub(crate) fn move_up(heads: &mut [Head], from: usize, to: usize)
    requires { (from ≤ to) × (to < length heads.old) }
    ensures { (d : Head) → heads.new
        ≡ insert (remove heads.old from) to (get_or heads.old from d) }
{
    let head = heads[from];
    heads.copy_within(from + 1..to + 1, from);
    heads[to] = head;
}
