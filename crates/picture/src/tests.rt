//! Values from outside, and one sheet.
use crate::sheet::{Sheet, draw};
use chart::{Column, Scale, column_of};
use losses::Run;
use std::alloc::AllocError;

fn is(column: Column, places: (usize, usize), values: (usize, usize)) -> bool {
    (column.first, column.end) == places && (column.least, column.greatest) == values
}

#[test]
fn a_list_in_columns(rt: HostRuntime) {
    let values = [31usize, 41, 59, 26, 53, 58, 97, 93, 23, 84];
    assert!(rt; is(column_of(&values, 3, 0), (0, 3), (31, 59)));
    assert!(rt; is(column_of(&values, 3, 1), (3, 6), (26, 58)));
    assert!(rt; is(column_of(&values, 3, 2), (6, 10), (23, 97)));
}

#[test]
fn places_on_a_line(rt: HostRuntime) {
    let scale = Scale {
        start: 100,
        length: 50,
        count: 24,
    };
    for (place, x) in [
        (0usize, 100usize),
        (1, 102),
        (12, 125),
        (23, 147),
        (24, 150),
        (99, 150),
    ] {
        assert_eq!(rt; scale.at(place), x, "at {place}");
    }
    let line = Scale {
        start: 7,
        length: 60_000,
        count: usize::MAX,
    };
    assert_eq!(rt; line.at(usize::MAX), 60_007);
    assert_eq!(rt; line.at(usize::MAX / 2), 30_006);
}

#[test]
fn a_sheet(rt: HostRuntime) -> Result<(), AllocError> {
    let sheet = Sheet {
        session: "a<b>&c",
        object: "o",
        tsi: 7,
        toi: 1,
        object_length: 1234,
        datagrams: 3,
        blocks: &[(1, 2), (1, 1)],
        carriers: &[0, 2],
        margin: 0,
        kill: &[1],
        kill_block: Some(1),
        burst: 0,
        runs: &[
            Some(Run {
                length: 1,
                block: Some(1),
            }),
            Some(Run {
                length: 0,
                block: Some(1),
            }),
            None,
        ],
    };
    let text = draw(rt.alloc(), &sheet)?;
    assert!(rt; text.as_str().contains("session a&lt;b&gt;&amp;c<"));
    assert!(rt; text.as_str().contains("object of 1,234 bytes"));
    assert!(rt; text.as_str().ends_with("</svg>\n"));
    Ok(())
}
