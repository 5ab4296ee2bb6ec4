//! Slot maps with keys of a kind of their own.
use aa_slots::map::{Key, SlotMap};
use allocator_api2::raw_vec::Growth;
use std::alloc::Global;
use std::mem::size_of;
use test_allocators::Faulty;

// A kind of keys.
#[derive(Clone, Copy, Drop)]
struct Player;

// Another, whose keys are not `Copy`.
#[derive(Drop)]
struct Token;

type Players<'a> = SlotMap<u32, &'a Faulty<Global>, Player>;

// Whether a map finds its values by keys of its kind.
fn finds_by_its_keys(players: &mut Players<'_>) -> Option<bool> {
    let first = players.insert(1).ok()?;
    let second = players.insert(2).ok()?;
    let removed = players.remove(first);
    let third = players.insert(3).ok()?;
    players[second] = 22;
    Some(
        removed == Some(1)
            && players.get(first).is_none()
            && players[second] == 22
            && players.contains_key(third)
            && first < third
            && third < second
            && players.keys().next() == Some(third),
    )
}

// Whether keys of two kinds with the same data are found in their own maps.
fn share_data(players: &mut Players<'_>, tokens: &mut SlotMap<u8, Global, Token>) -> Option<bool> {
    let player = players.insert(4).ok()?;
    let token = tokens.insert(5).ok()?;
    let same = token.data() == player.data();
    let found = tokens.remove(Key::from(player.data()));
    Some(same && found == Some(5) && players.get(player) == Some(&4))
}

#[test]
fn a_map_has_keys_of_its_own_kind(rt: HostRuntime) {
    let heap = Faulty::new(rt.alloc());
    let mut players: Players<'_> = SlotMap::with_key_in(&heap);
    assert!(rt; finds_by_its_keys(&mut players) == Some(true) && players.len() == 2);
    let mut players: Players<'_> = SlotMap::with_key_in(&heap);
    let mut tokens = SlotMap::with_growth_and_key_in(Growth::InPlace, rt.alloc());
    assert!(rt; share_data(&mut players, &mut tokens) == Some(true));
    assert!(rt; tokens.is_empty() && players.len() == 1);
}

#[test]
fn a_kind_takes_no_memory(rt: HostRuntime) {
    assert!(rt; size_of::<Key<Player>>() == size_of::<Key>() && size_of::<Key<Token>>() == 16);
    assert!(rt;
        Key::<Token>::default() == Key::default() && Key::<Token>::default() > first(rt.alloc())
    );
}

// Returns the first key of an empty map.
fn first(alloc: Global) -> Key<Token> {
    let mut tokens: SlotMap<(), Global, Token> = SlotMap::with_key_in(alloc);
    match tokens.insert(()) {
        Ok(key) => key,
        Err(_) => Key::default(),
    }
}

// Whether a map made with capacity allocates no more for as many values.
fn keeps_its_capacity(heap: &Faulty<Global>) -> Option<bool> {
    let mut players: Players<'_> = SlotMap::with_capacity_and_key_in(2, heap).ok()?;
    let requests = heap.requests();
    let inserted = players.insert(1).is_ok() && players.insert(2).is_ok();
    Some(inserted && players.capacity() == 2 && heap.requests() == requests)
}

#[test]
fn a_map_with_keys_of_a_kind_is_made_with_capacity(rt: HostRuntime) {
    let heap = Faulty::new(rt.alloc());
    assert!(rt; keeps_its_capacity(&heap) == Some(true));
    heap.fail_requests(0, 1);
    assert!(rt; keeps_its_capacity(&heap) == None);
}
