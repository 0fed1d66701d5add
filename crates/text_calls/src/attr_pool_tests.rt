use attr_pool::{Labels, Pool};
use map_kind::{Dart, Value};
use std::test::Fail;

fn value(a: i64) -> Value {
    Value { a, b: 0, c: 0 }
}

#[test]
fn gives_ids_that_are_not_live(rt: HostRuntime) -> Result<(), Fail> {
    let mut pool = Pool::new(rt.alloc());
    assert!(&rt; pool.reserve(2).is_ok());
    let one = pool.make(value(1));
    let two = pool.make(value(2));
    assert!(&rt; one != two);
    assert_eq!(&rt; pool.live_count(), 2);
    assert_eq!(&rt; pool.release(one), value(1));
    assert_eq!(&rt; pool.value(one), None);
    let three = pool.make(value(3));
    assert!(&rt; three != two);
    assert_eq!(&rt; pool.replace(three, value(4)), value(3));
    assert_eq!(&rt;
        (pool.value(two), pool.value(three)),
        (Some(value(2)), Some(value(4)))
    );
    assert_eq!(&rt; pool.live_count(), 2);
    Ok(())
}

#[test]
fn gives_each_released_id_again(rt: HostRuntime) -> Result<(), Fail> {
    let mut pool = Pool::new(rt.alloc());
    assert!(&rt; pool.reserve(3).is_ok());
    let one = pool.make(value(1));
    let two = pool.make(value(2));
    let three = pool.make(value(3));
    assert_eq!(&rt; pool.release(one), value(1));
    assert_eq!(&rt; pool.release(three), value(3));
    let four = pool.make(value(4));
    let five = pool.make(value(5));
    assert!(&rt; four != five);
    assert_eq!(&rt; pool.value(two), Some(value(2)));
    assert_eq!(&rt;
        (pool.value(four), pool.value(five)),
        (Some(value(4)), Some(value(5)))
    );
    assert_eq!(&rt; pool.live_count(), 3);
    Ok(())
}

#[test]
fn keeps_the_ids_of_darts(rt: HostRuntime) -> Result<(), Fail> {
    let dart = Dart::new(2).unwrap();
    let other = Dart::new(3).unwrap();
    let mut pool = Pool::new(rt.alloc());
    assert!(&rt; pool.reserve(1).is_ok());
    let id = pool.make(value(1));
    let mut labels = Labels::<3>::new(rt.alloc());
    assert!(&rt; labels.open(0).is_ok());
    assert!(&rt; labels.open(3).is_ok());
    assert!(&rt; labels.grow(3).is_ok());
    assert_eq!(&rt; labels.put(3, dart, Some(id)), None);
    assert_eq!(&rt; labels.put(3, other, Some(id)), None);
    assert_eq!(&rt; (labels.id(3, dart), labels.id(0, dart)), (Some(id), None));
    labels.cut(2);
    assert!(&rt; labels.grow(4).is_ok());
    assert_eq!(&rt; (labels.id(3, dart), labels.id(3, other)), (Some(id), None));
    assert_eq!(&rt; labels.put(3, dart, None), Some(id));
    assert_eq!(&rt; labels.put(0, dart, Some(id)), None);
    labels.swap(0, 3);
    assert_eq!(&rt; (labels.id(3, dart), labels.id(0, dart)), (Some(id), None));
    Ok(())
}
