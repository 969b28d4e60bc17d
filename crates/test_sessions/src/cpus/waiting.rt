//! A consumer that gives back what it never took: a hand-over that the ring refuses, and a buffer of another size.
use super::schedules::{PLAIN, Row, play_all};
use std::test::Fail;

const ROWS: [Row<'static>; 5] = [
    // A batch that the full ring refuses is held back, and is handed on by a later service, before anything is sealed. It takes
    // a consumer that gives back what it never took.
    Row {
        name: "refused-batch",
        asked: 9,
        lent: &[8, 8],
        config: "config 2 1 8 8 8 100",
        calls: "run 0 trace 1
run 0 service
run 0 trace 2
run 0 service
run 0 trace 3
run 0 service
run 0 trace 4
run 0 service
run consumer take 0
run 0 service
run consumer take 0
run consumer take 0
run consumer take 0
run consumer giveback 0
run 0 service
run consumer take 0",
        wanted: "cpu 0 trace kept
cpu 0 service sealed yes settled 0
cpu 0 trace kept
cpu 0 service sealed yes settled 0
cpu 0 trace kept
cpu 0 service sealed yes settled 0
cpu 0 trace kept
cpu 0 service sealed no settled 0
consumer take 0 batch drops 0 records 1: 1
cpu 0 service sealed no settled 0
consumer take 0 batch drops 0 records 1: 2
consumer take 0 batch drops 0 records 1: 3
consumer take 0 none
consumer giveback 0 yes
cpu 0 service sealed yes settled 0
consumer take 0 batch drops 0 records 1: 4
report cpu 0 offered 4 accepted 4 dropped 0 specdropped 0 lost 0 discarded 0 void 0 held 0 drops 0 unavailable 0 busy 0 stopped 0 worn 0
stream cpu 0: 1 2 3 4
",
        ..PLAIN
    },
    // What is held back at the end is left, between what was taken and what grew last.
    Row {
        name: "refused-batch-at-the-end",
        asked: 9,
        lent: &[8, 8],
        config: "config 2 1 8 8 8 100",
        calls: "run 0 trace 1
run 0 service
run 0 trace 2
run 0 service
run 0 trace 3
run 0 service
run 0 trace 4",
        wanted: "cpu 0 trace kept
cpu 0 service sealed yes settled 0
cpu 0 trace kept
cpu 0 service sealed yes settled 0
cpu 0 trace kept
cpu 0 service sealed yes settled 0
cpu 0 trace kept
report cpu 0 offered 4 accepted 4 dropped 0 specdropped 0 lost 0 discarded 0 void 0 held 0 drops 0 unavailable 0 busy 0 stopped 0 worn 0
stream cpu 0: 1 2 3 4
",
        ..PLAIN
    },
    // A buffer of another size is no spare; the next one is.
    Row {
        name: "spare-of-another-size",
        asked: 9,
        lent: &[16, 8],
        config: "config 2 1 8 8 8 100",
        calls: "run 0 trace 1
run 0 service
run 0 trace 2
run 0 service
run 0 service
run consumer take 0
run consumer take 0",
        wanted: "cpu 0 trace kept
cpu 0 service sealed yes settled 0
cpu 0 trace kept
cpu 0 service sealed no settled 0
cpu 0 service sealed yes settled 0
consumer take 0 batch drops 0 records 1: 1
consumer take 0 batch drops 0 records 1: 2
report cpu 0 offered 2 accepted 2 dropped 0 specdropped 0 lost 0 discarded 0 void 0 held 0 drops 0 unavailable 0 busy 0 stopped 0 worn 0
stream cpu 0: 1 2
",
        ..PLAIN
    },
    // A spare is found while a batch is held back, which no other may replace: nothing is sealed. The spare is kept, and taken by
    // the service that hands the batch on.
    Row {
        name: "spare-after-a-batch-in-hand",
        asked: 9,
        lent: &[8, 8],
        stock: &[8],
        config: "config 2 1 8 8 8 100",
        calls: "run 0 trace 1
run 0 service
run 0 trace 2
run 0 service
run 0 trace 3
run 0 service
run 0 trace 4
run consumer giveback 0
run 0 service
run consumer take 0
run 0 service
run consumer take 0
run consumer take 0
run consumer take 0
run 0 service
run consumer take 0",
        wanted: "cpu 0 trace kept
cpu 0 service sealed yes settled 0
cpu 0 trace kept
cpu 0 service sealed yes settled 0
cpu 0 trace kept
cpu 0 service sealed yes settled 0
cpu 0 trace kept
consumer giveback 0 yes
cpu 0 service sealed no settled 0
consumer take 0 batch drops 0 records 1: 1
cpu 0 service sealed yes settled 0
consumer take 0 batch drops 0 records 1: 2
consumer take 0 batch drops 0 records 1: 3
consumer take 0 none
cpu 0 service sealed no settled 0
consumer take 0 batch drops 0 records 1: 4
report cpu 0 offered 4 accepted 4 dropped 0 specdropped 0 lost 0 discarded 0 void 0 held 0 drops 0 unavailable 0 busy 0 stopped 0 worn 0
stream cpu 0: 1 2 3 4
",
        ..PLAIN
    },
    // After a batch held back a buffer of another size is no spare either. What was found then is kept, and at the end the batch in
    // hand stands in front of what grew last.
    Row {
        name: "other-size-after-a-batch-in-hand",
        asked: 9,
        lent: &[8, 8],
        stock: &[16, 8],
        config: "config 2 1 8 8 8 100",
        calls: "run 0 trace 1
run 0 service
run 0 trace 2
run 0 service
run 0 trace 3
run 0 service
run consumer giveback 0
run 0 service
run consumer giveback 0
run 0 service
run 0 service
run 0 trace 4
run 0 trace 5
run 0 trace 6",
        wanted: "cpu 0 trace kept
cpu 0 service sealed yes settled 0
cpu 0 trace kept
cpu 0 service sealed yes settled 0
cpu 0 trace kept
cpu 0 service sealed yes settled 0
consumer giveback 0 yes
cpu 0 service sealed no settled 0
consumer giveback 0 yes
cpu 0 service sealed no settled 0
cpu 0 service sealed no settled 0
cpu 0 trace kept
cpu 0 trace kept
cpu 0 trace dropped
report cpu 0 offered 6 accepted 5 dropped 1 specdropped 0 lost 0 discarded 0 void 0 held 0 drops 1 unavailable 0 busy 0 stopped 0 worn 0
stream cpu 0: 1 2 3 4 5
",
        ..PLAIN
    },
];

#[test]
fn refused_batches(rt: HostRuntime) -> Result<(), Fail> {
    play_all(&rt, &ROWS)
}
