//! Configurations that the words refuse.
use super::*;

#[test]
fn fields_out_of_range(rt: HostRuntime) {
    for (config, fault) in [
        (Config { cpus: 0, ..small() }, StartFault::Cpus),
        (
            Config {
                nspec: 0,
                ..small()
            },
            StartFault::Specs,
        ),
        (
            Config {
                bufsize: 12,
                ..small()
            },
            StartFault::BufSize,
        ),
        (
            Config {
                specsize: 0,
                ..small()
            },
            StartFault::SpecSize,
        ),
        (
            Config {
                max_issues: 0,
                ..small()
            },
            StartFault::Issues,
        ),
        (
            Config {
                max_calls: 0,
                ..small()
            },
            StartFault::Calls,
        ),
    ] {
        let refused = Words::start(rt.alloc(), &config).err();
        assert!(rt; refused == Some(fault));
    }
}
