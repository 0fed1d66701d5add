//! What no clause says: that a listing is written where memory is there, and what its lines look like.
ghost use Rattle.std.specs.Prelude.{◌≤◌, length};

use attr_rules::{Merge, Split, TableRule};
use list_text::{
    LISTING_MAX, ListFault, ListRow, ListRule, ListValue, ListWhat, Listing, MarkName,
    read_listing, write_listing,
};
use map_kind::{Dart, Place, Value};
use std::alloc::{AllocError, Global};
use std::test::Fail;

fn row(alloc: Global, dart: Dart, links: &[u32]) -> Result<ListRow, AllocError> {
    Ok(ListRow {
        dart,
        links: links.to_vec(alloc)?,
    })
}

fn value(dim: u32, dart: Dart, a: i64, b: i64, c: i64) -> ListValue {
    ListValue {
        dim,
        place: Place {
            dart,
            value: Value { a, b, c },
        },
    }
}

#[test]
fn a_triangle_of_a_combinatorial_map(rt: HostRuntime) -> Result<(), Fail> {
    let alloc = rt.alloc();
    let one = Dart::new(1).ok_or("no dart")?;
    let two = Dart::new(2).ok_or("no dart")?;
    let three = Dart::new(3).ok_or("no dart")?;
    let listing = Listing {
        letter: b'c',
        dim: 2,
        made: 3,
        rows: vec![in alloc;
            row(alloc, one, &[3, 2, 0])?,
            row(alloc, two, &[1, 3, 0])?,
            row(alloc, three, &[2, 1, 0])?,
        ]?,
        rules: vec![in alloc;
            ListRule {
                dim: 2,
                rule: TableRule {
                    merge: Merge::Sum,
                    split: Split::Share,
                },
            },
        ]?,
        values: vec![in alloc;
            value(0, one, -5, 0, 7),
            value(2, one, 1, i64::MIN, i64::MAX),
        ]?,
        marks: vec![in alloc; MarkName::new("begin"), MarkName::new("cut_1")]?,
    };
    assert_eq!(rt;
        write_listing(alloc, &listing)?.as_slice(),
        b"cellmap 2 c 2 3 3
1: 3 2 0
2: 1 3 0
3: 2 1 0
rule 2 sum share
val 0 1 -5 0 7
val 2 1 1 -9223372036854775808 9223372036854775807
mark begin
mark cut_1
end
"
            .as_slice()
    );
    Ok(())
}

#[test]
fn a_dart_of_a_generalized_map_of_dimension_seven(rt: HostRuntime) -> Result<(), Fail> {
    let alloc = rt.alloc();
    let last = Dart::new(4_194_304).ok_or("no dart")?;
    let listing = Listing {
        letter: b'g',
        dim: 7,
        made: 4_194_304,
        rows: vec![in alloc; row(alloc, last, &[0; 8])?]?,
        rules: Vec::new(alloc),
        values: Vec::new(alloc),
        marks: Vec::new(alloc),
    };
    assert_eq!(rt;
        write_listing(alloc, &listing)?.as_slice(),
        b"cellmap 2 g 7 4194304 1
4194304: 0 0 0 0 0 0 0 0
end
"
            .as_slice()
    );
    Ok(())
}

#[test]
fn an_empty_map(rt: HostRuntime) -> Result<(), Fail> {
    let alloc = rt.alloc();
    let listing = Listing {
        letter: b'g',
        dim: 2,
        made: 0,
        rows: Vec::new(alloc),
        rules: Vec::new(alloc),
        values: Vec::new(alloc),
        marks: Vec::new(alloc),
    };
    assert_eq!(rt;
        write_listing(alloc, &listing)?.as_slice(),
        b"cellmap 2 g 2 0 0\nend\n".as_slice()
    );
    Ok(())
}

/// What reading a text answers: the fault, or nothing where it is read.
fn fault_of(alloc: Global, text: &[u8]) -> Option<(u32, ListWhat)>
    requires { length text.now ≤ LISTING_MAX }
{
    match read_listing(alloc, text) {
        Err(ListFault::Bad { line, what }) => Some((line, what)),
        _ => None,
    }
}

#[test]
fn a_triangle_of_version_1(rt: HostRuntime) -> Result<(), Fail> {
    let alloc = rt.alloc();
    let text = b"cellmap 1 g 2 6 6
1: 2 6 0
2: 1 3 0
3: 4 2 0
4: 3 5 0
5: 6 4 0
6: 5 1 0
val 0 1 1 1 1
end
";
    let listing = read_listing(alloc, text)?;
    assert_eq!(rt;
        write_listing(alloc, &listing)?.as_slice(),
        b"cellmap 2 g 2 6 6
1: 2 6 0
2: 1 3 0
3: 4 2 0
4: 3 5 0
5: 6 4 0
6: 5 1 0
rule 0 first copy
val 0 1 1 1 1
end
"
            .as_slice()
    );
    Ok(())
}

#[test]
fn a_triangle_of_version_2(rt: HostRuntime) -> Result<(), Fail> {
    let alloc = rt.alloc();
    let text = b"cellmap 2 c 2 5 3
1: 5 3 0
3: 1 5 0
5: 3 1 0
rule 1 first keep
rule 2 sum share
val 1 3 -1 0 1
val 2 1 1 -9223372036854775808 9223372036854775807
mark begin
mark cut_1
end
";
    let listing = read_listing(alloc, text)?;
    assert_eq!(rt; write_listing(alloc, &listing)?.as_slice(), text.as_slice());
    Ok(())
}

#[test]
fn lines_without_the_form_of_their_place(rt: HostRuntime) -> Result<(), Fail> {
    let alloc = rt.alloc();
    // No memory is taken for the rows that are promised.
    assert_eq!(rt;
        fault_of(alloc, b"cellmap 2 g 2 4194304 4194304\nend\n"),
        Some((2, ListWhat::Form))
    );
    assert_eq!(rt;
        fault_of(alloc, b"cellmap 2 g 2 0 0\nend"),
        Some((2, ListWhat::Form))
    );
    assert_eq!(rt;
        fault_of(alloc, b"cellmap 2 g 2 0 0\nend\n\n"),
        Some((3, ListWhat::Form))
    );
    Ok(())
}

#[test]
fn the_other_faults(rt: HostRuntime) -> Result<(), Fail> {
    let alloc = rt.alloc();
    let twice = b"cellmap 2 g 2 2 2\n1: 0 0 0\n1: 0 0 0\nend\n";
    assert_eq!(rt; fault_of(alloc, twice), Some((3, ListWhat::Order)));
    let one_way = b"cellmap 2 g 2 2 2\n1: 0 0 0\n2: 1 0 0\nend\n";
    assert_eq!(rt; fault_of(alloc, one_way), Some((3, ListWhat::Laws)));
    let not_least =
        b"cellmap 2 g 2 2 2\n1: 2 0 0\n2: 1 0 0\nrule 1 sum share\nval 1 2 0 0 0\nend\n";
    assert_eq!(rt; fault_of(alloc, not_least), Some((5, ListWhat::Values)));
    Ok(())
}
