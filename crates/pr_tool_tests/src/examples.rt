//! What words, programs and configuration files come to.

use crate::calls::{OK, PLAIN, Setting, check_calls, check_text};
use crate::files::{files, texts};
use pr_tool_files::{Change, NEWER, made};
use std::alloc::{AllocError, Global};
use std::process::Abort;

/// Programs, of which two are refused, and samples.
const TEXTS: &str = "\
    #moving input x:8; output y:10 = x + x@1 + x@2 + x@3;\
    #and input x:8; output y = x & x;\
    #less input a:4; input b:4; output y = a - b; output z = a < b;\
    #wrong input a:8 output y = a;\
    #turns for i in 0..1000 { for j in 0..1000 { } }\
    #blanks 5\t3\r\n\r\n 255 1\
    #letter x\n\
    #seven 7\n\
    #five 1\n2\n3\n4\n5\n\
    #pair 0 1\n";

/// By `run` and by `eval`.
const BOTH: &str = "\
$ _ p s
6
254
= Ok 0
$ _ p e
= Ok 0
$ _ p blanks
6
254
= Ok 0
$ _ p b
6
254
= BadSample { line: 3 } 7
bad sample: line 3
$ _ p f
= BadSample { line: 1 } 7
bad sample: line 1
$ _ g letter
= NoWidth { equation: 2 } 4
no width: equation 2
$ _ wrong e
= Syntax { token: 4 } 3
syntax: token 4
$ _ e e
= Scope { rule: 10, item: 0 } 3
scope: rule 10 item 0
$ _ turns e
= Limit { which: Turns } 6
limit: turns 65536
";

/// Makes the calls of both modes in this one.
fn check_mode(rt: &impl Abort, alloc: Global, mode: &str) -> Result<(), AllocError> {
    let setting = Setting {
        blank: mode,
        ..PLAIN
    };
    check_calls(rt, alloc, texts(alloc, TEXTS)?, &setting, BOTH)
}

#[test]
fn programs_in_both_modes(rt: HostRuntime) -> Result<(), AllocError> {
    check_mode(&rt, rt.alloc(), "run")?;
    check_mode(&rt, rt.alloc(), "eval")
}

/// By one of them.
const SINGLE: &str = "\
$ run and seven
7
= Ok 0
$ run moving five
1
3
6
10
14
= Ok 0
$ eval moving five
1
3
6
10
14
= Ok 0
$ eval r q
255
0
1
= Ok 0
$ eval less pair
15 1
= Ok 0
";

#[test]
fn programs_in_one_mode(rt: HostRuntime) -> Result<(), AllocError> {
    let alloc = rt.alloc();
    check_calls(&rt, alloc, texts(alloc, TEXTS)?, &PLAIN, SINGLE)
}

/// Words with the files that all calls may name.
const LINES: &str = "\
$ --stripes=16 run --fabric base p s
6
254
= Ok 0
$ run p s --stripes 2
6
254
= Ok 0
$ run p s --stall t
= BadStall { place: 2 } 8
bad stall: byte 2
$ run p n --stall n
= ReadFault 10
read fault
$ run p s --fabric wide
6
254
= Ok 0
$ run t s --fabric wide
= Syntax { token: 0 } 3
syntax: token 0
$ run p n --fabric=wide --stall n
= ReadFault 10
read fault
$ run n s --narrow
= ReadFault 10
read fault
$ eval p s
6
254
= Ok 0
$ eval p n
= ReadFault 10
read fault
$ eval n s
= ReadFault 10
read fault
$ run p s --narrow
6
254
= Ok 0
$ run n s
= ReadFault 10
read fault
$ trace p e
end cycles 0 stalls 0 records 0
= Ok 0
$ run p
= Usage 2
usage: piperench MODE FIRST [SECOND] [--stripes P] [--stall FILE] [--fabric F] [--narrow]
$ fly p s
= Usage 2
usage: piperench MODE FIRST [SECOND] [--stripes P] [--stall FILE] [--fabric F] [--narrow]
$ run p s --stripes 1
= Usage 2
usage: piperench MODE FIRST [SECOND] [--stripes P] [--stall FILE] [--fabric F] [--narrow]
$ gen 1001
= Usage 2
usage: piperench MODE FIRST [SECOND] [--stripes P] [--stall FILE] [--fabric F] [--narrow]
$ show c
stages 2 inputs 2 outputs 1
stage 0 cells 2 writes 2 states 0
stage 1 cells 1 writes 1 states 0
= Ok 0
$ show n
= ReadFault 10
read fault
$ exec c s
6
254
= Ok 0
$ exec c s --stripes 2
6
254
= Ok 0
$ exec c s --stall n
= ReadFault 10
read fault
$ exec c s --stall t
= BadStall { place: 2 } 8
bad stall: byte 2
$ exec c b
6
254
= BadSample { line: 3 } 7
bad sample: line 3
$ exec c t
= BadSample { line: 1 } 7
bad sample: line 1
$ exec c n
= ReadFault 10
read fault
$ exec n s
= ReadFault 10
read fault
$ exec c s --fabric wide
6
254
= Ok 0
$ exec wide s
6
254
= Ok 0
$ exec old s
6
254
= Ok 0
$ show old
stages 2 inputs 2 outputs 1
stage 0 cells 2 writes 2 states 0
stage 1 cells 1 writes 1 states 0
= Ok 0
$ exec changed s
254
254
= Ok 0
$ exec cut s
= BadConfig { rule: 1, place: 22 } 9
bad config: rule 1 word 22
$ show cut
= BadConfig { rule: 1, place: 22 } 9
bad config: rule 1 word 22
$ migrate cut
= BadConfig { rule: 1, place: 22 } 9
bad config: rule 1 word 22
$ exec long s
= BadConfig { rule: 7, place: 23 } 9
bad config: rule 7 word 23
$ exec old-cut s
= BadConfig { rule: 1, place: 136 } 9
bad config: rule 1 word 136
$ exec old-long s
= BadConfig { rule: 7, place: 137 } 9
bad config: rule 7 word 137
$ exec third s
= BadConfig { rule: 6, place: 19 } 9
bad config: rule 6 word 19
$ exec far s
= BadConfig { rule: 8, place: 9 } 9
bad config: rule 8 word 9
";

#[test]
fn words(rt: HostRuntime) -> Result<(), AllocError> {
    let alloc = rt.alloc();
    check_calls(&rt, alloc, files(alloc)?, &PLAIN, LINES)
}

/// Checks that a configuration is written as the exclusive or in the newer format.
fn check_migrated(rt: &impl Abort, alloc: Global, line: &str) -> Result<(), AllocError> {
    let wanted = made(alloc, NEWER, Change::Nothing)?;
    check_text(rt, alloc, line, files(alloc)?, &PLAIN, OK, &wanted)
}

#[test]
fn migrated_configurations(rt: HostRuntime) -> Result<(), AllocError> {
    check_migrated(&rt, rt.alloc(), "migrate c --narrow")?;
    check_migrated(&rt, rt.alloc(), "migrate old --narrow")
}
