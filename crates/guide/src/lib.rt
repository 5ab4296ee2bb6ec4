//! Callers that depend on `allocator_api2` alone.
//!
//! `docs/CALLING.md` shows one module for each group of calls. The function below draws a
//! conclusion from the contract of `run`.
#![tactic(auto)]

ghost use Rattle.std.specs.Prelude.{◌≡◌, ◌+◌, ◌-◌, ◌*◌, ◌≤◌, [], length};
ghost use Rattle.std.specs.List.{AllByRecursion};
ghost use Rattle.allocator_api2.specs.Copies.{ClonesAreEqual};
ghost use Rattle.allocator_api2.specs.Growths.{FewBlocks};
ghost use Rattle.allocator_api2.specs.Run.{AddsOneAtMost};
ghost use Rattle.allocator_api2.specs.Vector.{HasRoom};
ghost use Rattle.allocator_api2.specs.declared.raw_vec.Growth.TheVariants.{Doubling};

pub mod boxes;
pub mod buffers;
pub mod chosen;
pub mod compared;
pub mod copies;
pub mod laws;
pub mod moved;
pub mod positions;
pub mod ranges;
pub mod room;
pub mod rows;
pub mod slices;
pub mod sorted;
pub mod stack;
pub mod texts;

use allocator_api2::runner::{Command, Reply, run};
use allocator_api2::vec::Vec;
use std::alloc::Allocator;

/// Runs commands such as `Push`, `Insert` and `Pop` on an empty list.
///
/// Growth moves at most twice as many elements as there are commands. Each command has one reply.
pub fn run_from_empty<T, A>(
    main: &mut Vec<T, A>,
    side: &mut Vec<T, A>,
    commands: Vec<Command<T, A>, A>,
    replies: &mut Vec<Reply<T>, A>,
)
where
    T: Clone + Drop,
    A: Allocator + Clone + Drop,
    // The list is empty and doubles. Each command adds at most one element.
    requires empty { main.old.items ≡ [] }
    requires doubling { main.old.growth ≡ Doubling }
    requires few { AllByRecursion AddsOneAtMost commands.items }

    // The replies fit, and clones are equal to their originals.
    requires room { HasRoom replies.old (length commands.items) }
    requires copies { ClonesAreEqual T.is_clone }

    // Growth is bounded by the number of commands, and so are the blocks: 2 + log2 of it.
    ensures grown { main.new.grown.moved ≤ main.old.grown.moved + 2 * length commands.items }
    ensures blocks { FewBlocks Doubling (main.new.grown.blocks - main.old.grown.blocks)
        (length commands.items) }
    ensures replied { length replies.new.items ≡ length replies.old.items + length commands.items }
{
    run(
        main,
        side,
        commands,
        &mut |_: &mut T| true,
        &mut |_: &mut T, _: &mut T| false,
        replies,
    );
}
