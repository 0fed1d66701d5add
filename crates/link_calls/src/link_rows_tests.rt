ghost use Rattle.std.specs.Prelude.{◌≡◌, slice_set};
ghost use Rattle.map_defs.specs.Edits.{free_row};

use dart_arena::MADE_MAX;
use link_rows::{
    BornRows, Change, Edit, LinkBuilder, Links, PlainEdit, ReserveFault, Row, polygon_edit,
};
use map_kind::{Alpha, Beta, Dart};
use std::test::Fail;

#[test]
fn darts_are_born_and_taken_back(rt: HostRuntime) -> Result<(), Fail> {
    let alloc = rt.alloc();
    let mut links = Links::<Alpha, 8>::new(alloc);
    assert!(&rt; links.reserve(2).is_ok());
    let births = PlainEdit {
        births: 2,
        deaths: Vec::new(alloc),
        changes: Vec::new(alloc),
    };
    links.apply_plain(&births);
    assert_eq!(&rt; (links.made(), links.live_count()), (2, 2));
    assert_eq!(&rt; links.next_live(1).map(Dart::number), Some(2));
    assert!(&rt; links.is_free(Dart::new(2).unwrap(), 7));
    links.reverse_plain(&births);
    assert_eq!(&rt; (links.made(), links.live_count()), (0, 0));
    Ok(())
}

// Two darts are born and sewn, the first one ends, and both steps are taken back.
#[test]
fn links_are_changed_and_taken_back(rt: HostRuntime) -> Result<(), Fail> {
    let alloc = rt.alloc();
    let one = Dart::new(1).unwrap();
    let two = Dart::new(2).unwrap();
    let mut links = Links::<Alpha, 8>::new(alloc);
    assert!(&rt; links.reserve(2).is_ok());
    let sewn = PlainEdit {
        births: 2,
        deaths: Vec::new(alloc),
        changes: Vec::from_slice(alloc, &[change(one, 0, 2), change(two, 0, 1)])?,
    };
    links.apply_plain(&sewn);
    let ended = PlainEdit {
        births: 0,
        deaths: Vec::from_slice(alloc, &[one])?,
        changes: Vec::from_slice(alloc, &[change(one, 2, 0), change(two, 1, 0)])?,
    };
    links.apply_plain(&ended);
    assert_eq!(&rt; (links.is_live(one), links.link(two, 8)), (false, None));
    links.reverse_plain(&ended);
    assert_eq!(&rt;
        (links.link(one, 8), links.link(two, 8)),
        (Some(two), Some(one))
    );
    assert_eq!(&rt; links.link(two, 7), None);
    Ok(())
}

fn change(dart: Dart, old: u32, new: u32) -> Change
    ensures { result ≡ record { dart = dart; link = 8; old = old; new = new } }
{
    Change::new(dart, 8, old, new)
}

// Two darts are born joined by link 8: their rows tell it, and so do the changes that the rows stand for.
#[test]
fn links_of_new_darts_are_told_by_rows(rt: HostRuntime) -> Result<(), Fail> {
    let alloc = rt.alloc();
    let one = Dart::new(1).unwrap();
    let two = Dart::new(2).unwrap();
    let mut born = BornRows::with_room(alloc, one, 9, 2)?;
    born.push(&row(2))?;
    born.push(&row(1))?;
    let edit = Edit {
        births: 2,
        deaths: Vec::new(alloc),
        changes: Vec::new(alloc),
        born,
    };
    assert_eq!(&rt;
        edit.all_changes(alloc)?.as_slice(),
        [change(one, 0, 2), change(two, 0, 1)].as_slice()
    );
    Ok(())
}

/// The row of a dart whose link 8 leads to another.
fn row(to: u32) -> Row<8>
    ensures { result ≡ slice_set (free_row 8) 8 to }
{
    let mut row = Row::zeros();
    row.set(8, to);
    row
}

// Dart 2 is born with a row that names dart 1 at link 8, and dart 1 leads back.
#[test]
fn old_darts_lead_back_to_new_ones(rt: HostRuntime) -> Result<(), Fail> {
    let alloc = rt.alloc();
    let one = Dart::new(1).unwrap();
    let two = Dart::new(2).unwrap();
    let mut born = BornRows::with_room(alloc, two, 9, 1)?;
    born.lead_back(8);
    born.push(&row(1))?;
    let edit = Edit {
        births: 1,
        deaths: Vec::new(alloc),
        changes: Vec::new(alloc),
        born,
    };
    assert_eq!(&rt; (edit.born.back(), edit.born.len()), (Some(8), 1));
    assert_eq!(&rt; edit.change_of(one, 8), Some(change(one, 0, 2)));
    assert_eq!(&rt;
        edit.all_changes(alloc)?.as_slice(),
        [change(one, 0, 2), change(two, 0, 1)].as_slice()
    );
    Ok(())
}

// The rows of darts 3 and 4 are put in their places. Dart 4 has link 8 alone, and the changes say no more.
#[test]
fn rows_are_put_in_their_places(rt: HostRuntime) -> Result<(), Fail> {
    let alloc = rt.alloc();
    let three = Dart::new(3).unwrap();
    let four = Dart::new(4).unwrap();
    let mut born = BornRows::zeros(alloc, three, 9, 2)?;
    born.put(1, &row(3));
    born.set(0, 8, 4);
    let edit = Edit {
        births: 2,
        deaths: Vec::new(alloc),
        changes: Vec::new(alloc),
        born,
    };
    assert_eq!(&rt;
        (edit.born.begin_by(2), edit.born.begin_by(3)),
        (false, true)
    );
    assert_eq!(&rt; edit.change_of(four, 8), Some(change(four, 0, 3)));
    assert_eq!(&rt; edit.change_of(four, 7), None);
    assert_eq!(&rt;
        edit.all_changes(alloc)?.as_slice(),
        [change(three, 0, 4), change(four, 0, 3)].as_slice()
    );
    Ok(())
}

#[test]
fn a_triangle_is_made_and_taken_back(rt: HostRuntime) -> Result<(), Fail> {
    let alloc = rt.alloc();
    let mut links = Links::<Alpha, 8>::new(alloc);
    assert!(&rt; links.reserve(6).is_ok());
    let triangle = polygon_edit(alloc, &links, 3)?;
    links.apply(&triangle);
    assert_eq!(&rt; links.made(), 6);
    assert_eq!(&rt; links.link(Dart::new(6).unwrap(), 1), Dart::new(1));
    assert_eq!(&rt; links.link(Dart::new(6).unwrap(), 0), Dart::new(5));
    links.reverse(&triangle);
    assert_eq!(&rt; (links.made(), links.live_count()), (0, 0));
    Ok(())
}

#[test]
fn no_more_darts_are_made_than_may_be(rt: HostRuntime) {
    let mut links = Links::<Alpha, 2>::new(rt.alloc());
    assert_eq!(&rt; links.reserve(MADE_MAX + 1), Err(ReserveFault::Full));
}

#[test]
fn links_are_set_one_by_one(rt: HostRuntime) -> Result<(), Fail> {
    let one = Dart::new(1).unwrap();
    let mut builder = LinkBuilder::<Alpha, 8>::new(rt.alloc(), 2)
        .ok()
        .ok_or("no memory")?;
    builder.set(one, 8, 2);
    builder.set(one, 8, 0);
    let links = builder.finish();
    assert_eq!(&rt; (links.made(), links.link(one, 8)), (2, None));
    Ok(())
}

// Link 0 of a side leads to its other end, link 1 to the next side, and link 2 is free: turned round, link 0 is free.
#[test]
fn links_of_a_triangle_are_turned_round(rt: HostRuntime) -> Result<(), Fail> {
    let alloc = rt.alloc();
    let mut links = Links::<Alpha, 2>::new(alloc);
    assert!(&rt; links.reserve(6).is_ok());
    let triangle = polygon_edit(alloc, &links, 3)?;
    links.apply(&triangle);
    let six = Dart::new(6).unwrap();
    links.reverse_links();
    assert_eq!(&rt; (links.made(), links.live_count()), (6, 6));
    assert_eq!(&rt; links.link(six, 0), None);
    assert_eq!(&rt; links.link(six, 1), Dart::new(1));
    assert_eq!(&rt; links.link(six, 2), Dart::new(5));
    Ok(())
}

// The map without darts is its own dual.
#[test]
fn no_darts_are_turned(rt: HostRuntime) {
    let mut links = Links::<Beta, 3>::new(rt.alloc());
    links.dualize();
    assert_eq!(&rt; (links.made(), links.live_count()), (0, 0));
}
