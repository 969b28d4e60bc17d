//! A speculation that both CPUs trace to, where the consumer meets each CPU after each call.
use super::schedules::{PLAIN, Row, play_all};
use std::test::Fail;

const ROWS: [Row<'static>; 1] = [
    // Both CPUs know of the stop.
    Row {
        name: "met-on-two-cpus",
        meets: true,
        config: "config 2 1 64 64 8 100",
        enabled: true,
        calls: "run 0 speculation
run 0 speculate 1 1
run 1 speculate 1 4 5
run 0 commit 1
run 0 speculation
run 1 service
run 0 service
run consumer stop
run 1 trace 1
run 0 discard 1",
        wanted: "cpu 0 speculation 1
cpu 0 speculate 1 kept
cpu 1 speculate 1 kept
cpu 0 commit 1 copied 1
cpu 0 speculation 0 busy
cpu 1 service sealed no settled 1
cpu 0 service sealed no settled 1
consumer stop done
cpu 1 trace stopped
cpu 0 discard 1 stopped
report cpu 0 offered 1 accepted 1 dropped 0 specdropped 0 lost 0 discarded 0 void 0 held 0 drops 0 unavailable 0 busy 1 stopped 1 worn 0
stream cpu 0: 1
",
        second: "report cpu 1 offered 2 accepted 1 dropped 0 specdropped 0 lost 0 discarded 0 void 1 held 0 drops 0 unavailable 0 busy 0 stopped 1 worn 0
stream cpu 1: 4(5)
",
        ..PLAIN
    },
];

#[test]
fn meetings(rt: HostRuntime) -> Result<(), Fail> {
    play_all(&rt, &ROWS)
}
