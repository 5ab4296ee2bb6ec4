//! The cases of the benchmark, by name.
ghost use Rattle.std.specs.Prelude.{◌≡◌, ◌≢◌, ◌++◌, Some, IfSome, IfNone};
ghost use Rattle.benchcases.specs.Cases.{name_of, name_of_call, suffix_of, name_of_choice};
ghost use Rattle.benchcases.specs.Cases.{name_of_pieces, name_of_collection, name_of_use};

/// A case: a call, or a small program, whose time is measured.
///
/// COUNT is the number of its steps or elements. Elements are `u32` unless said otherwise.
#[derive(Clone, Copy, PartialEq, Drop)]
pub enum Case {
    /// A call over elements of the given size.
    Sized(Call, Size),
    /// A call that chooses which elements are kept.
    Chosen(Choice),
    /// Appends COUNT pieces of bytes.
    Pieces(Pieces),
    /// Inserts or removes keys or items of a collection other than a vector.
    Held(Collection),
    /// A small program that uses vectors.
    Used(Use),
    /// Pushes a number and pops it.
    PushPop,
    /// Reserves capacity for numbers and pushes them.
    PushReserved,
    /// Pushes a number onto a full vector, which moves all its elements.
    PushFull,
    /// Pushes the sum of the last two numbers onto an empty vector.
    FibPush,
    /// Keeps every other element of 24 bytes.
    RetainWide,
    /// Inserts before the first `u64` and pops, a hundred times.
    InsertFront,
    /// Removes the first `u64` and pushes, a hundred times.
    RemoveFront,
    /// Removes the middle element, replacing it by the last, until the vector is empty.
    SwapRemove,
    /// Compares two equal vectors of bytes by `==`.
    EqBytes,
    /// Compares two equal vectors of bytes by `cmp`.
    CmpBytes,
    /// Extends an empty vector by a slice of bytes.
    ExtendFromSlice,
    /// Extends an empty vector by a range, which knows its length.
    Extend,
    /// Extends an empty vector by an iterator without a lower bound.
    ExtendUnhinted,
    /// Extends an empty vector by three ranges, with a call for each. Reserves the capacity before.
    ExtendThrice,
    /// Appends a vector to an empty one.
    Append,
    /// Splits a hundred `u64` in the middle and joins them, until COUNT elements are joined.
    SplitJoin,
    /// Drains the middle half of a vector twice as long, and takes each item.
    DrainTaken,
    /// Drains the middle half of a vector twice as long, and drops the drain.
    DrainDropped,
    /// Drains the first `u64` and pushes, a hundred times.
    DrainFront,
    /// Drains ten from the middle of 1,000 `u16` into another vector and appends that, until COUNT
    /// elements are drained.
    DrainBack,
    /// Takes each item of a vector that is consumed.
    IntoIter,
    /// Splices a hundred items at a time into the middle of a vector, empty at first.
    SpliceGrowing,
    /// Replaces the hundred items in the middle by a hundred others, by splices.
    SpliceInPlace,
    /// Splices in an item before the first `u64` and pops, a hundred times.
    SpliceFront,
    /// Inserts a thousand numbers in the middle, each after the one before.
    InsertMiddle,
    /// Does the same at the cursor of a gap buffer. The standard vector does `InsertMiddle`.
    GapInsert,
    /// Inserts COUNT numbers into a text of as many, in a gap buffer whose cursor jumps before each
    /// hundredth. The standard vector splices in a hundred at a time.
    GapTyping,
}

/// A call that is measured at each size of the elements.
#[derive(Clone, Copy, PartialEq, Drop)]
pub enum Call {
    /// Pushes elements onto an empty vector.
    Push,
    /// Pushes elements onto an empty vector that grows in place.
    PushInPlace,
    /// Inserts in the middle of 1,000 and pops.
    InsertPop,
    /// Removes from the middle of 1,000 and pushes.
    RemovePush,
    /// Clones a vector.
    Clone,
}

/// A call that chooses which elements are kept.
#[derive(Clone, Copy, PartialEq, Drop)]
pub enum Choice {
    /// Keeps every other element.
    RetainHalf,
    /// Keeps 99 of 100 elements.
    RetainMost,
    /// Keeps about half of the elements, in no regular order.
    RetainRandom,
    /// Keeps no element.
    RetainNone,
    /// Extracts every other element.
    ExtractHalf,
    /// Removes repeated elements, in runs of three equal ones.
    Dedup,
    /// Removes repeated elements, in runs of three with equal keys.
    DedupByKey,
}

/// The pieces of bytes that are appended.
#[derive(Clone, Copy, PartialEq, Drop)]
pub enum Pieces {
    /// Pieces of 4 bytes.
    OfFour,
    /// Pieces of 20 bytes.
    OfTwenty,
    /// Pieces of 1 to 24 bytes, in no regular order.
    Mixed,
    /// Pieces of 7 bytes, each written by `write_all`.
    Written,
}

/// A call on a table or an ordered map from `u64` to `u64`, on a tree of boxes, on a heap, on a
/// queue, on a small vector or on a slot map.
///
/// Keys are in no regular order.
#[derive(Clone, Copy, PartialEq, Drop)]
pub enum Collection {
    /// Inserts keys into an empty table.
    TableInsert,
    /// Looks up each key of a table.
    TableHit,
    /// Looks up keys that are missing, as many as the table has.
    TableMiss,
    /// Removes each key of a table.
    TableRemove,
    /// Reserves capacity for keys in an empty table and inserts them.
    TableReserved,
    /// Visits each entry of a table.
    TableIter,
    /// Visits the entries of a table from which nine of ten keys were removed.
    TableIterSparse,
    /// Inserts keys into an empty search tree of boxes, which is not balanced.
    BoxTree,
    /// Looks up each key of such a tree.
    BoxTreeFind,
    /// Inserts keys into an empty ordered map.
    MapInsert,
    /// Looks up each key of an ordered map.
    MapGet,
    /// Removes each key of an ordered map.
    MapRemove,
    /// Visits each entry of an ordered map, in the order of the keys.
    MapScan,
    /// Pushes keys onto an empty heap.
    HeapPush,
    /// Pops each key of a heap, the greatest first.
    HeapPop,
    /// Pushes at the back of a queue of 100 numbers and pops at the front.
    RingQueue,
    /// Pushes at the back of an empty queue.
    RingPush,
    /// Pushes at the back of an empty queue that grows in place.
    RingInPlace,
    /// Makes vectors of eight numbers and takes the numbers, COUNT in all.
    InlineFew,
    /// Makes a vector of such vectors, of COUNT numbers in all.
    InlineRows,
    /// Inserts numbers into an empty slot map.
    SlotsInsert,
    /// Inserts numbers into an empty slot map that grows in place.
    SlotsInPlace,
    /// Looks up each key of a slot map.
    SlotsGet,
    /// Removes each number of a slot map and inserts another for it.
    SlotsChurn,
}

/// A small program that uses vectors.
#[derive(Clone, Copy, PartialEq, Drop)]
pub enum Use {
    /// Writes records of three fields as bytes.
    Serialise,
    /// Lists the places where each word of a text of COUNT bytes begins and ends.
    Tokenize,
    /// Reads lines from COUNT bytes, each into a vector of its own.
    Lines,
    /// Looks up COUNT keys in a cache of the last 16 ones, in the order of their use.
    Lru,
    /// Appends batches of a hundred, one half by a drain and the rest by an append.
    Merge,
    /// Removes texts that equal the one before, in runs of three.
    DedupTexts,
    /// Writes COUNT rows of two columns, padded with blanks.
    TextTable,
    /// Inserts each number at its place in a sorted vector, which is cleared at 1,000.
    InsertSorted,
    /// Computes each cell of a grid of a hundred columns from those above and to the left.
    Grid,
    /// Makes a vector of boxes and takes them.
    Boxes,
    /// Makes a vector of rows of ten numbers, COUNT in all, and swaps each with another.
    Rows,
    /// Pushes numbers, and removes the first if there are more than a hundred.
    Window,
}

/// The size of an element.
#[derive(Clone, Copy, PartialEq, Drop)]
pub enum Size {
    /// 4 bytes, a `u32`.
    Four,
    /// 1 byte.
    One,
    /// 24 bytes.
    TwentyFour,
    /// No bytes: a zero-sized element.
    Zero,
}

impl Case {
    /// Returns the case of this name, or `None` if no case has it.
    pub fn from_name(name: &str) -> Option<Case>
        ensures some { IfSome result (λ case. name.now ≡ name_of case) }
        ensures none { IfNone result ((case : Case) → name.now ≢ name_of case) }
    {
        let case = match name {
            "push_pop" => Case::PushPop,
            "push_reserved" => Case::PushReserved,
            "push_full" => Case::PushFull,
            "fib_push" => Case::FibPush,
            "retain_wide" => Case::RetainWide,
            "insert_front" => Case::InsertFront,
            "remove_front" => Case::RemoveFront,
            "swap_remove" => Case::SwapRemove,
            "eq_bytes" => Case::EqBytes,
            "cmp_bytes" => Case::CmpBytes,
            "extend_from_slice" => Case::ExtendFromSlice,
            "extend" => Case::Extend,
            "extend_unhinted" => Case::ExtendUnhinted,
            "extend_thrice" => Case::ExtendThrice,
            "append" => Case::Append,
            "split_join" => Case::SplitJoin,
            "drain_taken" => Case::DrainTaken,
            "drain_dropped" => Case::DrainDropped,
            "drain_front" => Case::DrainFront,
            "drain_back" => Case::DrainBack,
            "into_iter" => Case::IntoIter,
            "splice_growing" => Case::SpliceGrowing,
            "splice_in_place" => Case::SpliceInPlace,
            "splice_front" => Case::SpliceFront,
            "insert_middle" => Case::InsertMiddle,
            "gap_insert" => Case::GapInsert,
            "gap_typing" => Case::GapTyping,
            _ => return from_name_in_groups(name),
        };
        Some(case)
    }
}

// Returns the case of this name among choices, pieces, collections, uses, and calls with a size.
fn from_name_in_groups(name: &str) -> Option<Case>
    // A case that is returned has this name.
    ensures some { IfSome result (λ case. name.now ≡ name_of case) }

    // If none is returned, no case of any group has this name.
    ensures no_choice { IfNone result ((choice : Choice) → name.now ≢ name_of_choice choice) }
    ensures no_pieces { IfNone result ((pieces : Pieces) → name.now ≢ name_of_pieces pieces) }
    ensures no_collection { IfNone result
        ((held : Collection) → name.now ≢ name_of_collection held) }
    ensures no_use { IfNone result ((used : Use) → name.now ≢ name_of_use used) }
    ensures no_size { IfNone result
        ((call : Call) → (size : Size) → name.now ≢ name_of_call call ++ suffix_of size) }
{
    if let Some(choice) = choice_of(name) {
        return Some(Case::Chosen(choice));
    }
    if let Some(pieces) = pieces_of(name) {
        return Some(Case::Pieces(pieces));
    }
    if let Some(collection) = collection_of(name) {
        return Some(Case::Held(collection));
    }
    if let Some(used) = use_of(name) {
        return Some(Case::Used(used));
    }
    let (call, size) = call_and_size(name)?;
    Some(Case::Sized(call, size))
}

// Returns the call and the size of the case of this name.
fn call_and_size(name: &str) -> Option<(Call, Size)>
    ensures some { IfSome result (λ case. name.now ≡ name_of_call case.0 ++ suffix_of case.1) }
    ensures none { IfNone result
        ((call : Call) → (size : Size) → name.now ≢ name_of_call call ++ suffix_of size) }
{
    let case = match name {
        "push" => (Call::Push, Size::Four),
        "push_u8" => (Call::Push, Size::One),
        "push_24" => (Call::Push, Size::TwentyFour),
        "push_zst" => (Call::Push, Size::Zero),
        "push_in_place" => (Call::PushInPlace, Size::Four),
        "push_in_place_u8" => (Call::PushInPlace, Size::One),
        "push_in_place_24" => (Call::PushInPlace, Size::TwentyFour),
        "push_in_place_zst" => (Call::PushInPlace, Size::Zero),
        "insert_pop" => (Call::InsertPop, Size::Four),
        "insert_pop_u8" => (Call::InsertPop, Size::One),
        "insert_pop_24" => (Call::InsertPop, Size::TwentyFour),
        "insert_pop_zst" => (Call::InsertPop, Size::Zero),
        "remove_push" => (Call::RemovePush, Size::Four),
        "remove_push_u8" => (Call::RemovePush, Size::One),
        "remove_push_24" => (Call::RemovePush, Size::TwentyFour),
        "remove_push_zst" => (Call::RemovePush, Size::Zero),
        "clone" => (Call::Clone, Size::Four),
        "clone_u8" => (Call::Clone, Size::One),
        "clone_24" => (Call::Clone, Size::TwentyFour),
        "clone_zst" => (Call::Clone, Size::Zero),
        _ => return None,
    };
    Some(case)
}

// Returns the choice of this name.
fn choice_of(name: &str) -> Option<Choice>
    ensures some { IfSome result (λ choice. name.now ≡ name_of_choice choice) }
    ensures none { IfNone result ((choice : Choice) → name.now ≢ name_of_choice choice) }
{
    let choice = match name {
        "retain_half" => Choice::RetainHalf,
        "retain_most" => Choice::RetainMost,
        "retain_random" => Choice::RetainRandom,
        "retain_none" => Choice::RetainNone,
        "extract_half" => Choice::ExtractHalf,
        "dedup" => Choice::Dedup,
        "dedup_by_key" => Choice::DedupByKey,
        _ => return None,
    };
    Some(choice)
}

// Returns the pieces of this name.
fn pieces_of(name: &str) -> Option<Pieces>
    ensures some { IfSome result (λ pieces. name.now ≡ name_of_pieces pieces) }
    ensures none { IfNone result ((pieces : Pieces) → name.now ≢ name_of_pieces pieces) }
{
    let pieces = match name {
        "pieces_of_4" => Pieces::OfFour,
        "pieces_of_20" => Pieces::OfTwenty,
        "pieces_mixed" => Pieces::Mixed,
        "write_pieces" => Pieces::Written,
        _ => return None,
    };
    Some(pieces)
}

// Returns the collection call of this name.
fn collection_of(name: &str) -> Option<Collection>
    ensures some { IfSome result (λ collection. name.now ≡ name_of_collection collection) }
    ensures none { IfNone result ((held : Collection) → name.now ≢ name_of_collection held) }
{
    let collection = match name {
        "table_insert" => Collection::TableInsert,
        "table_hit" => Collection::TableHit,
        "table_miss" => Collection::TableMiss,
        "table_remove" => Collection::TableRemove,
        "table_reserved" => Collection::TableReserved,
        "table_iter" => Collection::TableIter,
        "table_iter_sparse" => Collection::TableIterSparse,
        "box_tree" => Collection::BoxTree,
        "box_tree_find" => Collection::BoxTreeFind,
        "map_insert" => Collection::MapInsert,
        "map_get" => Collection::MapGet,
        "map_remove" => Collection::MapRemove,
        "map_scan" => Collection::MapScan,
        "heap_push" => Collection::HeapPush,
        "heap_pop" => Collection::HeapPop,
        "ring_queue" => Collection::RingQueue,
        "ring_push" => Collection::RingPush,
        "ring_in_place" => Collection::RingInPlace,
        "inline_few" => Collection::InlineFew,
        "inline_rows" => Collection::InlineRows,
        "slots_insert" => Collection::SlotsInsert,
        "slots_in_place" => Collection::SlotsInPlace,
        "slots_get" => Collection::SlotsGet,
        "slots_churn" => Collection::SlotsChurn,
        _ => return None,
    };
    Some(collection)
}

// Returns the use of this name.
fn use_of(name: &str) -> Option<Use>
    ensures some { IfSome result (λ used. name.now ≡ name_of_use used) }
    ensures none { IfNone result ((used : Use) → name.now ≢ name_of_use used) }
{
    let used = match name {
        "serialise" => Use::Serialise,
        "tokenize" => Use::Tokenize,
        "lines" => Use::Lines,
        "lru" => Use::Lru,
        "merge" => Use::Merge,
        "dedup_texts" => Use::DedupTexts,
        "text_table" => Use::TextTable,
        "insert_sorted" => Use::InsertSorted,
        "grid" => Use::Grid,
        "boxes" => Use::Boxes,
        "rows" => Use::Rows,
        "window" => Use::Window,
        _ => return None,
    };
    Some(used)
}
