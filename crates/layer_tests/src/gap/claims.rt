//! Callers whose contracts say what a worked example counts, what an insert writes at the end, and
//! what edits leave of a new text; and the numbers of a few scripts.
ghost use Rattle.std.specs.Prelude.{◌≡◌, ℕ, ◌+◌, ◌-◌, ◌*◌, ◌<◌, ◌≤◌, List, None, [], ◌∷◌, replicate, reverse, fold, IfOk, IsTrue, OnErr, OnOk};
ghost use Rattle.std.specs.Mem.{type_size};
ghost use Rattle.std.specs.Iterator.{IsFinite, YieldsThen};
ghost use Rattle.aa_raw.specs.declared.raw_vec.Growth.TheVariants.{Doubling, Sparing};
ghost use Rattle.aa_raw.specs.Growth.{amortized};
ghost use Rattle.aa_raw.specs.Growths.{FewBlocks};
ghost use Rattle.std.specs.List.{Contains};
ghost use Rattle.aa_gap.specs.Buffer.{empty, len, gap, text as whole};
ghost use Rattle.aa_gap.specs.Editing.{with_edit};
ghost use Rattle.aa_gap.specs.Page.{inserts};
ghost use Rattle.aa_gap.specs.declared.gap_buffer.Edit.{Edit};
ghost use Rattle.aa_gap.specs.declared.gap_buffer.Edit.TheVariants.{Insert, DeleteBack, DeleteForward, MoveTo};

use aa_gap::gap_buffer::{Edit, GapBuffer};
use aa_raw::collections::{Refused, TryReserveError};
use std::alloc::{AllocError, Allocator, Global};

// An insert without spare capacity: wherever the cursor is, it moves the text to one new block, each
// element once, and writes nothing but its item.
fn added<T, A: Allocator>(text: &mut GapBuffer<T, A>, item: T) -> Result<(), Refused<T>>
    requires { gap text.old ≡ 0 }
    ensures grown { OnOk result (text.new.grown.moved ≡ text.old.grown.moved + len text.old) }
    ensures blocks { OnOk result (text.new.grown.blocks ≡ text.old.grown.blocks + 1) }
    ensures written { OnOk result (text.new.written ≡ text.old.written + 1) }
    ensures runs { OnOk result (text.new.runs ≡ text.old.runs + 1) }
{
    text.insert(item)
}

// Reserving capacity writes nothing, even if places were free, and leaves the cursor.
fn reserves<T, A: Allocator>(
    text: &mut GapBuffer<T, A>,
    count: usize,
) -> Result<(), TryReserveError>
    requires { gap text.old < count }
    ensures parts { OnOk result
        ((text.new.before ≡ text.old.before) × (text.new.after ≡ text.old.after)) }
    ensures grown { OnOk result (text.new.grown.moved ≡ text.old.grown.moved + len text.old) }
    ensures blocks { OnOk result (text.new.grown.blocks ≡ text.old.grown.blocks + 1) }
    ensures written { OnOk result (text.new.written ≡ text.old.written) }
    ensures runs { OnOk result (text.new.runs ≡ text.old.runs) }
    ensures unchanged { OnErr result (text.new ≡ text.old) }
{
    text.reserve(count)
}

// A text made by edits is the empty one after them. Whatever is deleted between, growth moves at
// most two elements for each insert, allocates few blocks, and holds at most three places for each
// insert at once, or one for each and eight.
#[tactic(auto, using(aa_gap::proofs::Callers::callers))]
fn made_by<T: Drop, A: Allocator, I: Iterator<Item = Edit<T>>>(
    edits: &mut I,
    alloc: A,
) -> Result<GapBuffer<T, A>, TryReserveError>
    requires callable { I.can_next edits.old }
    requires finite { IsFinite (I.remaining edits.old) }
    ensures { let size = type_size T.row in
        IfOk result
        (λ text. (done : List (Edit T)) × YieldsThen I.next_gives edits.old done None edits.new
        × (text ≡ fold (with_edit size) (empty size 0 Doubling alloc) done)
        × (text.grown.moved ≤ 2 * inserts done) × FewBlocks Doubling text.grown.blocks (inserts done)
        × let n = inserts done in
        text.grown.held ≤ n - 1 + amortized Doubling (n - 1) n 8) }
{
    let mut text = GapBuffer::new_in(alloc);
    text.edit_all(edits)?;
    Ok(text)
}

// A `for` loop sees the elements of the whole text.
fn has<A: Allocator>(text: &GapBuffer<u32, A>, x: u32) -> bool
    ensures { IsTrue result → Contains (whole text.now) x }
{
    for y in text {
        if *y == x {
            return true;
        }
    }
    false
}

// Copies of the elements are collected in order, or in reverse.
fn copied<A: Allocator>(
    text: &GapBuffer<u32, A>,
    alloc: Global,
) -> Result<GapBuffer<u32>, AllocError>
    ensures { IfOk result (λ v. v.before ≡ whole text.now) }
{
    text.iter().copied().collect(alloc)
}

fn reversed<A: Allocator>(
    text: &GapBuffer<u32, A>,
    alloc: Global,
) -> Result<GapBuffer<u32>, AllocError>
    ensures { IfOk result (λ v. v.before ≡ reverse (whole text.now)) }
{
    text.iter().rev().copied().collect(alloc)
}

// The elements by value are collected in order.
fn moved<T: Drop, A: Allocator>(
    text: GapBuffer<T, A>,
    alloc: Global,
) -> Result<GapBuffer<T>, AllocError>
    ensures { IfOk result (λ v. v.before ≡ whole text) }
{
    text.into_iter().collect(alloc)
}

// Five inserts: 4 places, and at the fifth 8. The four before it are moved, while both blocks are
// held, and each is written once. (A number represents the allocator.)
fn five_inserts()
    ensures { fold (with_edit {T = ℕ} {A = ℕ} 4) (empty 4 0 Doubling 0) (replicate 5 (Insert 7))
        ≡ record {
          before = replicate 5 7;
          after = [];
          capacity = 8;
          growth = Doubling;
          grown = record { moved = 4; blocks = 2; held = 12 };
          written = 5;
          runs = 5;
          alloc = 0;
        } }
{}

// Seventeen inserts: blocks of 4, 8, 16 and 32 places, the last two of which are held at once. These
// are few blocks, and at most three places for each insert.
fn seventeen_inserts()
    ensures counts { fold (with_edit {T = ℕ} {A = ℕ} 4) (empty 4 0 Doubling 0)
        (replicate 17 (Insert 7))
        ≡ record {
          before = replicate 17 7;
          after = [];
          capacity = 32;
          growth = Doubling;
          grown = record { moved = 28; blocks = 4; held = 48 };
          written = 17;
          runs = 17;
          alloc = 0;
        } }
    ensures few { FewBlocks Doubling 4 17 }
    ensures held { 17 - 1 + amortized Doubling (17 - 1) 17 8 ≡ 48 }
{}

// 1, 2 and 3, a move back to after the first, then 9 and 8. Then the elements on either side of the
// cursor are deleted.
fn worked()
    ensures { fold (with_edit {T = ℕ} {A = ℕ} 4) (empty 4 0 Doubling 0)
        (Insert 1 ∷ Insert 2 ∷ Insert 3 ∷ MoveTo 1 ∷ Insert 9 ∷ Insert 8 ∷ DeleteForward
        ∷ DeleteBack ∷ [])
        ≡ record {
          before = 1 ∷ 9 ∷ [];
          after = 3 ∷ [];
          capacity = 8;
          growth = Doubling;
          grown = record { moved = 4; blocks = 2; held = 12 };
          written = 7;
          runs = 6;
          alloc = 0;
        } }
{}

// The fifth is inserted after the first of four: growth moves the four, and writes none of them
// again. In a full text the cursor moves for free. Deletions do not change the capacity, so that
// the insert after them does not allocate.
fn inserts_in_the_middle()
    ensures { fold (with_edit {T = ℕ} {A = ℕ} 4) (empty 4 0 Doubling 0)
        (Insert 1 ∷ Insert 2 ∷ Insert 3 ∷ Insert 4 ∷ MoveTo 1 ∷ Insert 9 ∷ DeleteBack
        ∷ DeleteForward ∷ Insert 8 ∷ [])
        ≡ record {
          before = 1 ∷ 8 ∷ [];
          after = 3 ∷ 4 ∷ [];
          capacity = 8;
          growth = Doubling;
          grown = record { moved = 4; blocks = 2; held = 12 };
          written = 6;
          runs = 6;
          alloc = 0;
        } }
{}

// Bytes have 8 places at first, and a sparing growth makes half as many more of them: 12 for the
// ninth.
fn nine_bytes()
    ensures { fold (with_edit {T = ℕ} {A = ℕ} 1) (empty 1 0 Sparing 0) (replicate 9 (Insert 7))
        ≡ record {
          before = replicate 9 7;
          after = [];
          capacity = 12;
          growth = Sparing;
          grown = record { moved = 8; blocks = 2; held = 20 };
          written = 9;
          runs = 9;
          alloc = 0;
        } }
{}
