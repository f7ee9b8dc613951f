//! Programs that take turns.

use crate::calls::{
    OK, PLAIN, READ_FAULT, Setting, WRITE_FAULT, check_calls, check_lines, check_text,
};
use crate::files::{Files, put_long, texts};
use std::alloc::{AllocError, Global};
use std::process::Abort;

/// A program with inputs of seventeen bytes, and lists.
const TEXTS: &str = "\
    #w input a:128; input b:8; output y = b;\
    #two r q 1\np s 2\n\
    #blank-line \n r q 1\n\
    #no-turn r q 0\n\
    #bad-second r q 1\np b 2\
    #bad-twice p b 1\np b 1\n\
    #first-gone r n 1\np s 1000000\n\
    #second-gone p b 9\nr n 1\n\
    #program-gone r q 1\nn s 2\n\
    #no-width r q 1\ng s 2\nn s 1\n\
    #wide-inputs w q 1\n\
    #no-items e e 1\n\
    #no-samples p e 1\nr e 1\n\
    #eight p s 1\np s 2\np s 3\np s 1\np s 1\np s 1\np s 1\np s 1\n";

/// Lists, the first of which has the running sum, a line in each turn, and the exclusive or, two lines.
const CASES: &str = "\
$ share two --stripes _ --fabric wide --narrow
0: 255
1: 6
1: 254
0: 0
0: 1
= Ok 0
$ share blank-line --stripes _ --fabric wide --narrow
= BadList { line: 2 } 14
bad list: line 2
$ share e --stripes _ --fabric wide --narrow
= BadList { line: 1 } 14
bad list: line 1
$ share no-turn --stripes _ --fabric wide --narrow
= BadList { line: 1 } 14
bad list: line 1
$ share bad-second --stripes _ --fabric wide --narrow
0: 255
1: 6
1: 254
0: 0
0: 1
= Part { program: 1, cause: BadSample { line: 3 } } 7
program 1: bad sample: line 3
$ share bad-twice --stripes _ --fabric wide --narrow
0: 6
1: 6
0: 254
1: 254
= Part { program: 0, cause: BadSample { line: 3 } } 7
program 0: bad sample: line 3
$ share first-gone --stripes _ --fabric wide --narrow
1: 6
1: 254
= ReadFault 10
read fault
$ share second-gone --stripes _ --fabric wide --narrow
0: 6
0: 254
= ReadFault 10
read fault
$ share program-gone --stripes _ --fabric wide --narrow
= ReadFault 10
read fault
$ share no-width --stripes _ --fabric wide --narrow
= Part { program: 1, cause: NoWidth { equation: 2 } } 4
program 1: no width: equation 2
$ share wide-inputs --stripes _ --fabric wide --narrow
= Part { program: 0, cause: Limit { which: InputBytes } } 6
program 0: limit: input-bytes 16
$ share no-items --stripes _ --fabric wide --narrow
= Part { program: 0, cause: Scope { rule: 10, item: 0 } } 3
program 0: scope: rule 10 item 0
$ share no-samples --stripes _ --fabric wide --narrow
= Ok 0
$ share eight --stripes _ --fabric wide --narrow
0: 6
1: 6
1: 254
2: 6
2: 254
3: 6
4: 6
5: 6
6: 6
7: 6
0: 254
3: 254
4: 254
5: 254
6: 254
7: 254
= Ok 0
";

/// Makes the calls on so many stripes.
fn check_lists(rt: &impl Abort, alloc: Global, stripes: &str) -> Result<(), AllocError> {
    let setting = Setting {
        blank: stripes,
        ..PLAIN
    };
    check_calls(rt, alloc, texts(alloc, TEXTS)?, &setting, CASES)
}

#[test]
fn lists(rt: HostRuntime) -> Result<(), AllocError> {
    check_lists(&rt, rt.alloc(), "2")?;
    check_lists(&rt, rt.alloc(), "16")
}

/// Appends lists of as many bytes as are allowed, and of one more: blanks stand behind the first line.
fn put_lists(alloc: Global, files: &mut Files) -> Result<(), AllocError> {
    put_long(alloc, files, "most", "r q 1\n", " ", 65_529, "\n")?;
    put_long(alloc, files, "more", "r q 1\n", " ", 65_530, "\n")
}

/// The texts of all calls, and these lists.
fn long_files(alloc: Global) -> Result<Files, AllocError> {
    let mut files = texts(alloc, "")?;
    put_lists(alloc, &mut files)?;
    Ok(files)
}

const LONG: &str = "\
$ share most
0: 255
0: 0
0: 1
= Ok 0
$ share more
= Limit { which: ListBytes } 6
limit: list-bytes 65536
";

#[test]
fn long_lists(rt: HostRuntime) -> Result<(), AllocError> {
    let alloc = rt.alloc();
    check_calls(&rt, alloc, long_files(alloc)?, &PLAIN, LONG)
}

/// The call of which reads and writes fail, and its lines.
const TWO: &str = "share two --stripes 2";

const LINES: &str = "0: 255\n1: 6\n1: 254\n0: 0\n0: 1\n";

/// Five files take two reads each: one finds the bytes, the other the end. Where the first read of a program's samples
/// fails, only the lines of the other are written; where the second does, all lines.
#[test]
fn every_read_fails(rt: HostRuntime) -> Result<(), AllocError> {
    let alloc = rt.alloc();
    for read in 1..11u64 {
        let wanted = match read {
            7 => "1: 6\n1: 254\n",
            8 => "0: 255\n0: 0\n0: 1\n",
            9 | 10 => LINES,
            _ => "",
        };
        let setting = Setting { read, ..PLAIN };
        let files = texts(alloc, TEXTS)?;
        check_text(
            &rt,
            alloc,
            TWO,
            files,
            &setting,
            READ_FAULT,
            wanted.as_bytes(),
        )?;
    }
    Ok(())
}

/// Each of the five lines takes two writes: its number, and the rest.
#[test]
fn every_write_fails(rt: HostRuntime) -> Result<(), AllocError> {
    let alloc = rt.alloc();
    for write in 1..12u64 {
        let setting = Setting { write, ..PLAIN };
        let ending = if write < 11 { WRITE_FAULT } else { OK };
        let files = texts(alloc, TEXTS)?;
        check_lines(&rt, alloc, TWO, files, &setting, ending, LINES)?;
    }
    Ok(())
}
