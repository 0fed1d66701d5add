//! Values on cells, and the rules by which they merge and split.
use crate::harness::{Row, check_rows};
use std::alloc::AllocError;

const VALUES: [Row; 6] = [
    Row {
        script: "polygon 3\npolygon 3\nrule 1 sum share\nset 1 1 5 0 0\nset 1 7 2 0 0\nsew 2 1 7\nvalue 1 1\nunsew 2 1\nvalue 1 1\nvalue 1 7\n",
        text: "ok 1 6\nok 7 6\nok\nok\nok\nok\nvalue 7 0 0\nok\nvalue 4 0 0\nvalue 3 0 0\n",
        status: 0,
    },
    // sums stop at the bounds of 64 bits
    Row {
        script: "polygon 3\npolygon 3\nrule 1 sum share\nset 1 1 9223372036854775807 -5 0\nset 1 7 1 -9223372036854775808 0\nsew 2 1 7\nvalue 1 1\n",
        text: "ok 1 6\nok 7 6\nok\nok\nok\nok\nvalue 9223372036854775807 -9223372036854775808 0\n",
        status: 0,
    },
    // a name that is in no table, and values without a rule
    Row {
        script: "rule 0 median copy\nrule 3 first copy\npolygon 3\nset 1 1 1 2 3\nclear 1 1\nvalue 1 1\nrule 1 first copy\nset 1 7 1 2 3\nvalue 3 1\n",
        text: "no 4 NoRule\nno 2 BadDim\nok 1 6\nno 4 NoRule\nno 4 NoRule\nvalue none\nok\nno 3 NoDart\nno 2 BadDim\n",
        status: 1,
    },
    // values in the listing
    Row {
        script: "polygon 3\nrule 1 first copy\nrule 0 sum copy\nset 1 1 5 -6 7\nvalue 1 2\nvalue 1 3\nset 0 6 0 0 1\nshow\nclear 1 2\nvalue 1 1\nshow\n",
        text: "ok 1 6\nok\nok\nok\nvalue 5 -6 7\nvalue none\nok\ncellmap 2 g 2 6 6\n1: 2 6 0\n2: 1 3 0\n3: 4 2 0\n4: 3 5 0\n\
            5: 6 4 0\n6: 5 1 0\nrule 0 sum copy\nrule 1 first copy\nval 0 1 0 0 1\nval 1 1 5 -6 7\nend\nok\nvalue none\n\
            cellmap 2 g 2 6 6\n1: 2 6 0\n2: 1 3 0\n3: 4 2 0\n4: 3 5 0\n5: 6 4 0\n6: 5 1 0\nrule 0 sum copy\nrule 1 first copy\n\
            val 0 1 0 0 1\nend\n",
        status: 0,
    },
    // rules and marks in the listing
    Row {
        script: "polygon 3\nrule 0 sum share\nset 0 1 1 2 3\nmark a\nshow\n",
        text: "ok 1 6\nok\nok\nok\ncellmap 2 g 2 6 6\n1: 2 6 0\n2: 1 3 0\n3: 4 2 0\n4: 3 5 0\n5: 6 4 0\n6: 5 1 0\n\
            rule 0 sum share\nval 0 1 1 2 3\nmark a\nend\n",
        status: 0,
    },
    // the cells of a dart that ends
    Row {
        script: "dart\ndart\nrule 0 first copy\nrule 2 first copy\nset 0 1 1 0 0\nset 2 2 2 0 0\ndel 1\nshow\ndel 2\nshow\n",
        text: "ok 1 1\nok 2 1\nok\nok\nok\nok\nok\ncellmap 2 g 2 2 1\n2: 0 0 0\nrule 0 first copy\nrule 2 first copy\n\
            val 2 2 2 0 0\nend\nok\ncellmap 2 g 2 2 0\nrule 0 first copy\nrule 2 first copy\nend\n",
        status: 0,
    },
];

const HANDED_IN: [Row; 4] = [
    // the closures that are stored
    Row {
        script: "polygon 3\npolygon 3\nrule 1 host host\nset 1 1 5 0 0\nset 1 7 6 0 0\nsew 2 1 7\nvalue 1 1\n",
        text: "ok 1 6\nok 7 6\nok\nok\nok\nok\nvalue 7 0 0\n",
        status: 0,
    },
    // rules that are known by names: the least, the greatest and the sum
    Row {
        script: "polygon 3\npolygon 3\nrule 1 span span\nset 1 1 5 5 5\nset 1 7 2 9 4\nsew 2 1 7\nvalue 1 1\nunsew 2 1\nvalue 1 1\nvalue 1 7\nrule 0 spam copy\n",
        text: "ok 1 6\nok 7 6\nok\nok\nok\nok\nvalue 2 9 9\nok\nvalue 2 9 5\nvalue 2 9 4\nno 4 NoRule\n",
        status: 1,
    },
    // a named rule in the log and in the listing, and one that comes back with a mark
    Row {
        script: "polygon 3\npolygon 3\nset 1 1 5 0 0\nmark a\nrule 1 xor copy\nlog a\nset 1 1 5 0 0\nset 1 7 6 0 0\nsew 2 1 7\nvalue 1 1\nshow\n",
        text: "ok 1 6\nok 7 6\nno 4 NoRule\nok\nok\nlog 1\nstep 1\nrule 1 - xor/copy\nend\nok\nok\nok\nvalue 3 0 0\ncellmap 2 g 2 12 12\n1: 2 6 7\n2: 1 3 8\n3: 4 2 0\n4: 3 5 0\n5: 6 4 0\n6: 5 1 0\n7: 8 12 1\n8: 7 9 2\n9: 10 8 0\n10: 9 11 0\n11: 12 10 0\n12: 11 7 0\nrule 1 xor copy\nval 1 1 3 0 0\nmark a\nend\n",
        status: 1,
    },
    // a named rule that an undo gives back
    Row {
        script: "polygon 3\nrule 1 xor span\nmark a\nrule 1 sum share\nundo a\nlog a\nshow\n",
        text: "ok 1 6\nok\nok\nok\nok\nlog 0\nend\ncellmap 2 g 2 6 6\n1: 2 6 0\n2: 1 3 0\n3: 4 2 0\n4: 3 5 0\n5: 6 4 0\n6: 5 1 0\nrule 1 xor span\nmark a\nend\n",
        status: 0,
    },
];

#[test]
fn rules_that_are_handed_in(rt: HostRuntime) -> Result<(), AllocError> {
    check_rows(&rt, rt.alloc(), "g", "2", &HANDED_IN)
}

#[test]
fn values_in_dimension_2(rt: HostRuntime) -> Result<(), AllocError> {
    check_rows(&rt, rt.alloc(), "g", "2", &VALUES)
}
