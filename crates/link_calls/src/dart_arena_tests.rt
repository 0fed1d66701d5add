use dart_arena::{Arena, MADE_MAX, ReserveFault};
use map_kind::Dart;
use std::test::Fail;

#[test]
fn numbers_rise_and_are_not_given_again(rt: HostRuntime) -> Result<(), Fail> {
    let mut arena = Arena::<2>::new(rt.alloc());
    assert!(&rt; arena.reserve(4).is_ok());
    let a = arena.birth();
    let b = arena.birth();
    assert_eq!(&rt; (a.number(), b.number()), (1, 2));
    arena.set_entry(b, 2, 7);
    arena.set_entry(a, 2, 5);
    assert_eq!(&rt; (arena.entry(a, 2), arena.entry(b, 2)), (5, 7));
    arena.bury(b);
    let c = arena.birth();
    assert_eq!(&rt; c.number(), 3);
    assert_eq!(&rt; (arena.made(), arena.live_count()), (3, 2));
    assert_eq!(&rt; (arena.is_live(a), arena.is_live(b)), (true, false));
    arena.unbirth();
    assert_eq!(&rt; (arena.made(), arena.live_count()), (2, 1));
    arena.revive(b);
    assert_eq!(&rt; (arena.entry(a, 2), arena.entry(b, 2)), (5, 0));
    Ok(())
}

#[test]
fn finds_the_next_live_dart(rt: HostRuntime) -> Result<(), Fail> {
    let mut arena = Arena::<8>::new(rt.alloc());
    assert!(&rt; arena.reserve(3).is_ok());
    arena.birth();
    let b = arena.birth();
    let c = arena.birth();
    arena.bury(b);
    assert_eq!(&rt; arena.next_live(1), Some(c));
    assert_eq!(&rt; arena.next_live(3), None);
    assert_eq!(&rt; arena.next_live(u32::MAX), None);
    Ok(())
}

#[test]
fn makes_no_more_darts_than_it_may(rt: HostRuntime) {
    let mut arena = Arena::<3>::new(rt.alloc());
    assert_eq!(&rt; arena.reserve(MADE_MAX + 1), Err(ReserveFault::Full));
    assert_eq!(&rt; arena.reserve(0), Ok(()));
}

// The rows of live darts are turned round, with an entry in the middle, and a dart that is not live has none.
#[test]
fn rows_are_turned_round(rt: HostRuntime) -> Result<(), Fail> {
    let mut arena = Arena::<2>::new(rt.alloc());
    assert!(&rt; arena.reserve(3).is_ok());
    let a = arena.birth();
    let b = arena.birth();
    let c = arena.birth();
    arena.set_entry(a, 0, 4);
    arena.set_entry(a, 1, 5);
    arena.set_entry(c, 2, 6);
    arena.bury(b);
    arena.reverse_rows();
    assert_eq!(&rt; entries(&arena, a), [0, 5, 4]);
    assert_eq!(&rt; entries(&arena, b), [0, 0, 0]);
    assert_eq!(&rt; entries(&arena, c), [6, 0, 0]);
    assert_eq!(&rt; (arena.made(), arena.live_count()), (3, 2));
    Ok(())
}

/// The entries of a dart.
fn entries(arena: &Arena<2>, dart: Dart) -> [u32; 3] {
    [
        arena.entry(dart, 0),
        arena.entry(dart, 1),
        arena.entry(dart, 2),
    ]
}

// Once keys are kept, rows are used again: darts that are born, taken back, buried and brought back have rows of their own.
#[test]
fn rows_of_dead_darts_are_used_again(rt: HostRuntime) -> Result<(), Fail> {
    let mut arena = Arena::<2>::new(rt.alloc());
    bear(&mut arena, 5_000);
    bury_all(&mut arena, 4_900);
    let rows = arena.row_capacity();
    assert!(&rt; arena.reserve(200).is_ok());
    assert_eq!(&rt; arena.row_capacity(), rows);
    assert!(&rt; has_own_entries(&arena, 4_900));
    bear(&mut arena, 200);
    assert_eq!(&rt; arena.row_capacity(), rows);
    unbirth(&mut arena);
    bury(&mut arena, 5_100);
    revive(&mut arena, 7);
    revive(&mut arena, 5_100);
    assert_eq!(&rt; (arena.made(), arena.live_count()), (5_199, 300));
    assert_eq!(&rt;
        (entry(&arena, 7), entry(&arena, 8), entry(&arena, 5_100)),
        (0, 0, 0)
    );
    assert_eq!(&rt;
        (
            entry(&arena, 5_000),
            entry(&arena, 5_099),
            entry(&arena, 5_199),
            entry(&arena, 5_200)
        ),
        (5_000, 5_099, 5_199, 0)
    );
    arena.reverse_rows();
    assert_eq!(&rt; (entry(&arena, 5_000), entry(&arena, 7)), (5_000, 0));
    assert_eq!(&rt; arena.next_live(7).map(|dart| dart.number()), Some(4_901));
    Ok(())
}

// Once keys are kept, the rows of live darts go into a wider slab where there is no memory for all that are to come.
#[test]
fn rows_go_into_a_wider_slab(rt: HostRuntime) -> Result<(), Fail> {
    let mut arena = Arena::<2>::new(rt.alloc());
    bear(&mut arena, 5_000);
    bury_all(&mut arena, 4_900);
    assert!(&rt; arena.reserve(200).is_ok());
    let rows = arena.row_capacity();
    bear(&mut arena, 20_000);
    assert!(&rt; rows < arena.row_capacity() && arena.row_capacity() < 50_000);
    assert_eq!(&rt; (arena.made(), arena.live_count()), (25_000, 20_100));
    assert!(&rt; has_own_entries(&arena, 4_900));
    revive(&mut arena, 7);
    assert_eq!(&rt;
        (entry(&arena, 7), entry(&arena, 8), arena.live_count()),
        (0, 0, 20_101)
    );
    Ok(())
}

// One row serves all darts that ever live, where each dies before the next is born.
#[test]
fn a_dart_at_a_time_takes_few_rows(rt: HostRuntime) -> Result<(), Fail> {
    let mut arena = Arena::<8>::new(rt.alloc());
    for _ in 0..MADE_MAX {
        assert!(&rt; arena.reserve(1).is_ok());
        let dart = arena.birth();
        if arena.is_live(dart) {
            arena.bury(dart);
        }
    }
    assert_eq!(&rt; (arena.made(), arena.live_count()), (MADE_MAX, 0));
    assert_eq!(&rt; arena.reserve(1), Err(ReserveFault::Full));
    assert!(&rt; arena.row_capacity() < 10_000);
    Ok(())
}

/// The entry at link 1 of the dart with a number.
fn entry(arena: &Arena<2>, number: u32) -> u32 {
    Dart::new(number).map_or(0, |dart| arena.entry(dart, 1))
}

/// Whether each dart above a number has that number as its entry at link 1.
fn has_own_entries(arena: &Arena<2>, above: u32) -> bool {
    for number in above..arena.made() {
        if entry(arena, number + 1) != number + 1 {
            return false;
        }
    }
    true
}

/// Makes so many darts, each with its number as its entry at link 1, while there is room.
fn bear(arena: &mut Arena<2>, count: u32) {
    for _ in 0..count {
        if arena.reserve(1).is_ok() {
            let dart = arena.birth();
            arena.set_entry(dart, 1, dart.number());
        }
    }
}

/// Ends the dart with a number, if it lives.
fn bury(arena: &mut Arena<2>, number: u32) {
    if let Some(dart) = Dart::new(number) {
        if arena.is_live(dart) {
            arena.bury(dart);
        }
    }
}

/// Ends the darts up to a number.
fn bury_all(arena: &mut Arena<2>, last: u32) {
    for before in 0..last {
        bury(arena, before + 1);
    }
}

/// Takes the last birth back, if the dart lives.
fn unbirth(arena: &mut Arena<2>) {
    if let Some(dart) = Dart::new(arena.made()) {
        if arena.is_live(dart) {
            arena.unbirth();
        }
    }
}

/// Brings the dart with a number back, if it was made and is dead, and there is room.
fn revive(arena: &mut Arena<2>, number: u32) {
    if arena.reserve(1).is_err() {
        return;
    }
    if let Some(dart) = Dart::new(number) {
        if dart.number() <= arena.made() && !arena.is_live(dart) {
            arena.revive(dart);
        }
    }
}
