//! How `parse` reads a whole text. `lines` has each form of a line, runs/sizes what is large or too large, and runs/commands and
//! runs/lines the faults.

use std::test::Fail;
use sva_grammar::{Scenario, parse};
use sva_step::Step;

#[test]
fn reads_the_steps(rt: HostRuntime) -> Result<(), Fail> {
    let text = b"# first\nconfig 2 4096 3\nspace\n\nunmap 0 16\n#drop 1\ndrop 5";
    let Scenario { config, steps } = parse(rt.alloc(), text).ok().ok_or("no scenario")?;
    let found = (
        config.endpoints,
        config.frames,
        config.workers,
        config.first,
    );
    assert_eq!(rt; found, (2, 4096, 3, 0));
    let (space, page, count) = (0, 16, 1);
    let want = [
        Step::Space,
        Step::Unmap { space, page, count },
        Step::DropSpace { space: 5 },
    ];
    assert_eq!(rt; steps.as_slice(), want.as_slice());
    Ok(())
}
