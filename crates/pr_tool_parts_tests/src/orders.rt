//! Command lines and what they ask for.

use pr_base::Fabric;
use pr_tool_files::command_line;
use pr_tool_words::{GenSize, Mode, Options, Words, WordsFault, read_words};
use std::alloc::{AllocError, Global};
use std::process::Abort;
use std::test::Fail;

/// Words, and the mode and the options that they ask for.
type Case = (&'static [&'static str], Mode<'static>, Options<'static>);

/// The options that stand where none is given.
const USUAL: Options<'static> = Options {
    stripes: 16,
    stall: None,
    fabric: Fabric::Base,
    narrow: false,
};

const RUN: Mode<'static> = Mode::Run {
    program: "p",
    samples: "s",
};

/// Modes with their files, and no options.
const MODES: [Case; 5] = [
    (&["run", "p", "s"], RUN, USUAL),
    (
        &["gen", "1000"],
        Mode::Gen {
            size: GenSize { turns: 1000 },
        },
        USUAL,
    ),
    (&["share", "l"], Mode::Share { list: "l" }, USUAL),
    (
        &["extend", "--", "--narrow", "-s"],
        Mode::Extend {
            checkpoint: "--narrow",
            samples: "-s",
        },
        USUAL,
    ),
    (
        &["eval", "", "s"],
        Mode::Eval {
            program: "",
            samples: "s",
        },
        USUAL,
    ),
];

/// Options before, among and after the other words.
const OPTIONS: [Case; 4] = [
    (
        &[
            "trace",
            "p",
            "s",
            "--stripes",
            "2",
            "--stall=t",
            "--fabric=wide",
            "--narrow",
        ],
        Mode::Trace {
            program: "p",
            samples: "s",
        },
        Options {
            stripes: 2,
            stall: Some("t"),
            fabric: Fabric::Wide,
            narrow: true,
        },
    ),
    (
        &["--narrow", "compile", "--fabric", "base", "p"],
        Mode::Compile { program: "p" },
        Options {
            stripes: 16,
            stall: None,
            fabric: Fabric::Base,
            narrow: true,
        },
    ),
    (
        &["--stripes=256", "run", "p", "s"],
        RUN,
        Options {
            stripes: 256,
            stall: None,
            fabric: Fabric::Base,
            narrow: false,
        },
    ),
    (
        &["show", "c", "--stall", "-"],
        Mode::Show { configuration: "c" },
        Options {
            stripes: 16,
            stall: Some("-"),
            fabric: Fabric::Base,
            narrow: false,
        },
    ),
];

/// Checks what words ask for.
fn check_asked(rt: &impl Abort, alloc: Global, case: Case) -> Result<(), AllocError> {
    let (words, mode, options) = case;
    let line = command_line(alloc, words)?;
    let asked = read_words(alloc, &line);
    assert!(rt; asked.is_ok_and(|w| w == Words { mode, options }));
    Ok(())
}

#[test]
fn modes(rt: HostRuntime) -> Result<(), Fail> {
    for case in MODES {
        check_asked(&rt, rt.alloc(), case)?;
    }
    Ok(())
}

#[test]
fn options(rt: HostRuntime) -> Result<(), Fail> {
    for case in OPTIONS {
        check_asked(&rt, rt.alloc(), case)?;
    }
    Ok(())
}

/// Words that are no lawful command line.
const REFUSED: [&[&str]; 22] = [
    &[],
    &["run"],
    &["run", "a"],
    &["run", "a", "b", "c"],
    &["show", "a", "b"],
    &["fly", "a", "b"],
    &["Run", "a", "b"],
    &["run", "a", "b", "--stripes", "1"],
    &["run", "a", "b", "--stripes", "257"],
    &["run", "a", "b", "--stripes", "016"],
    &["run", "a", "b", "--stripes", "+16"],
    &["show", "c", "--stripes", "0"],
    &["show", "c", "--fabric", "narrow"],
    &["gen", "0"],
    &["gen", "1001"],
    &["gen", "4294967297"],
    &["run", "a", "b", "--stripes", "4", "--stripes=4"],
    &["run", "a", "b", "--stall"],
    &["run", "a", "b", "--stall", "--narrow"],
    &["run", "a", "b", "--narrow=true"],
    &["run", "a", "b", "--help"],
    &["--version"],
];

#[test]
fn words_that_ask_for_nothing_lawful(rt: HostRuntime) -> Result<(), Fail> {
    let alloc = rt.alloc();
    for words in REFUSED {
        let line = command_line(alloc, words)?;
        let asked = read_words(alloc, &line);
        assert!(rt; asked.is_err_and(|e| matches!(e, WordsFault::Usage)));
    }
    Ok(())
}
