//! Batches that a service seals, for the asks that came before.
use super::schedules::{PLAIN, Row, play_all};
use std::test::Fail;

const ROWS: [Row<'static>; 4] = [
    // A batch is sealed where one is asked for and a spare is there: the first is in hand, the next comes back from the
    // consumer.
    Row {
        name: "switched-batches",
        asked: 2,
        config: "config 2 1 8 8 8 100",
        calls: "run 0 trace 1
run 0 service
run 0 trace 2
run 0 trace 3
run 0 service
run 0 trace 4
run consumer take 0
run 0 service
run consumer giveback 0
run consumer giveback 0
run 0 service
run 0 trace 5
run consumer take 0
run consumer take 0
run consumer giveback 0
run 0 service",
        wanted: "cpu 0 trace kept
cpu 0 service sealed yes settled 0
cpu 0 trace kept
cpu 0 trace kept
cpu 0 service sealed no settled 0
cpu 0 trace dropped
consumer take 0 batch drops 0 records 1: 1
cpu 0 service sealed no settled 0
consumer giveback 0 yes
consumer giveback 0 no
cpu 0 service sealed yes settled 0
cpu 0 trace kept
consumer take 0 batch drops 1 records 2: 2 3
consumer take 0 none
consumer giveback 0 yes
cpu 0 service sealed no settled 0
report cpu 0 offered 5 accepted 4 dropped 1 specdropped 0 lost 0 discarded 0 void 0 held 0 drops 1 unavailable 0 busy 0 stopped 0 worn 0
stream cpu 0: 1 2 3 5
",
        ..PLAIN
    },
    // As many batches are sealed at the most as a CPU has calls.
    Row {
        name: "seals-as-many-as-calls",
        asked: 5,
        config: "config 2 1 8 8 8 1",
        calls: "run 0 trace 1
run 0 service
run consumer take 0
run consumer giveback 0
run 0 service",
        wanted: "cpu 0 trace kept
cpu 0 service sealed yes settled 0
consumer take 0 batch drops 0 records 1: 1
consumer giveback 0 yes
cpu 0 service sealed no settled 0
report cpu 0 offered 1 accepted 1 dropped 0 specdropped 0 lost 0 discarded 0 void 0 held 0 drops 0 unavailable 0 busy 0 stopped 0 worn 0
stream cpu 0: 1
",
        ..PLAIN
    },
    // Where no batch comes back, none is sealed, and the buffer fills up.
    Row {
        name: "never-given-back",
        asked: 9,
        config: "config 2 1 8 8 8 100",
        calls: "run 0 trace 1
run 0 service
run consumer take 0
run 0 trace 2
run 0 trace 3
run 0 service
run 0 trace 4
run 0 service
run consumer take 0",
        wanted: "cpu 0 trace kept
cpu 0 service sealed yes settled 0
consumer take 0 batch drops 0 records 1: 1
cpu 0 trace kept
cpu 0 trace kept
cpu 0 service sealed no settled 0
cpu 0 trace dropped
cpu 0 service sealed no settled 0
consumer take 0 none
report cpu 0 offered 4 accepted 3 dropped 1 specdropped 0 lost 0 discarded 0 void 0 held 0 drops 1 unavailable 0 busy 0 stopped 0 worn 0
stream cpu 0: 1 2 3
",
        ..PLAIN
    },
    // A lost block is one drop of its batch, as a dropped record is.
    Row {
        name: "lost-blocks-in-batches",
        asked: 2,
        config: "config 2 1 8 8 8 100",
        calls: "run 0 trace 1
run 0 speculation
run 0 speculate 1 2
run 0 speculate 1 3
run 0 commit 1
run 0 trace 4
run 0 trace 5
run 0 service
run consumer take 0
run consumer giveback 0
run 0 trace 6
run 0 service
run consumer take 0",
        wanted: "cpu 0 trace kept
cpu 0 speculation 1
cpu 0 speculate 1 kept
cpu 0 speculate 1 kept
cpu 0 commit 1 lost 2
cpu 0 trace kept
cpu 0 trace dropped
cpu 0 service sealed yes settled 0
consumer take 0 batch drops 2 records 2: 1 4
consumer giveback 0 yes
cpu 0 trace kept
cpu 0 service sealed yes settled 0
consumer take 0 batch drops 0 records 1: 6
report cpu 0 offered 6 accepted 3 dropped 1 specdropped 0 lost 2 discarded 0 void 0 held 0 drops 2 unavailable 0 busy 0 stopped 0 worn 0
stream cpu 0: 1 4 6
",
        ..PLAIN
    },
];

#[test]
fn batches(rt: HostRuntime) -> Result<(), Fail> {
    play_all(&rt, &ROWS)
}
