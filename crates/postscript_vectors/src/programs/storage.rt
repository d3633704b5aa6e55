//! Rows of stored numbers.
use super::Row;

/// Stored numbers.
#[rattlefmt::skip]
pub(super) fn storage() -> &'static [Row] {
    &[
        // A number is stored and fetched. The stored numbers are zeros at the start.
        ("908b0c148b0c1516", "", "HMoveTo 5 | end"),
        ("8b0c1516", "", "HMoveTo 0 | end"),
        ("aa0c1516", "", "HMoveTo 0 | end"),
        // A number with a fraction is stored whole.
        ("ff000180008b0c148b0c1516", "", "HMoveTo 98304/65536 | end"),
        // The last number has the index 31.
        ("8caa0c14aa0c1516", "", "HMoveTo 1 | end"),
        ("8cab0c14", "", "fault 21"), ("ab0c15", "", "fault 21"), ("8c8a0c14", "", "fault 21"),
        ("8a0c15", "", "fault 21"),
        // The index is popped first, and then the number. Then the index is checked.
        ("0c14", "", "fault 18"), ("0c15", "", "fault 18"), ("8cff000080000c14", "", "fault 18"),
        ("8cff000080000c15", "", "fault 18"), ("8b0c14", "", "fault 17"), ("ab0c14", "", "fault 17"),
        // A caller fetches a number that its subroutine stored, and the other way round.
        ("200a8b0c1516", "908b0c140b", "HMoveTo 5 | end"),
        ("908b0c14200a0e", "8b0c15160b", "HMoveTo 5 | end"),
        // A counter. The first subroutine fetches number 0, adds 1 and stores it again. The second one calls it twice.
        // One call and two make 3, and two more 5.
        ("200a210a8b0c1516210a8b0c15040e", "8b0c158c0c0a8b0c140b 200a200a0b", "HMoveTo 3 | VMoveTo 5 | end"),
        // A swap. Number 0 is 3 and number 1 is 4. The subroutine fetches both, stores the top as number 0 and the
        // other one as number 1. So they are 4 and 3 after one call, and 3 and 4 after the next.
        (
            "8e8b0c148f8c0c14200a8b0c158c0c1515200a8b0c158c0c15050e",
            "8b0c158c0c158b0c148c0c140b",
            "RMoveTo 4 3 | RLineTo 3 4 | end",
        ),
        // A value that is passed on. The first subroutine stores 9 as number 2 and calls the second one. That fetches
        // it, adds 1, stores 10 as number 5 and calls the third one, which stores number 5 as number 2. The first one
        // moves by number 2.
        ("200a0e", "948d0c14210a8d0c15160b 8d0c158c0c0a900c14220a0b 900c158d0c140b", "HMoveTo 10 | end"),
    ]
}
