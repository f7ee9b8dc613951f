//! Lines of a text as they are shown, and files that are no text of a program.

use crate::calls::check_calls;
use std::alloc::AllocError;

/// Bytes that are not printable, and lines that are cut.
const LINES: &str = "\
$ pipelens why p
input x:8;\routput y = x $ 1; // \x1b[31m
= 3
p:1:25: syntax: token 9
  1 | input x:8;\\x0doutput y = x $ 1; // \\x1b[31m
    |                            ^
...
$ pipelens why p
input x:8;\toutput y = x $ 1;
= 3
p:1:25: syntax: token 9
  1 | input x:8;\toutput y = x $ 1;
    |           \t             ^
...
$ pipelens why p
input x:8;
output y = x $ 1; // one two three four five six seven eight nine ten eleven
= 3
p:2:14: syntax: token 9
  2 | output y = x $ 1; // one two three four five six seven eight nine ten ele…
    |              ^
...
$ pipelens why p
input first:8; input second:8; input third:8; input fourth:8; output sum = first + second + third + fourth + x;
= 3
p:1:110: scope: rule 2 item 4
  1 | …st:8; input second:8; input third:8; input fourth:8; output sum = first + second + third + fourth + x;
    |                                                                                                      ^
...
";

#[test]
fn lines_as_they_are_shown(rt: HostRuntime) -> Result<(), AllocError> {
    check_calls(&rt, rt.alloc(), "", LINES)
}

/// Files that are no text of a program.
const FILES: &str = "\
$ pipelens why p
PIP2\0\0\0\x10
= 3
p:1:1: syntax: token 0
  1 | PIP2\\x00\\x00\\x00\\x10
    | ^^^^
...The file is a configuration, and no text of a program: `piperench show FILE`...
$ pipelens why p
PIP1\0
= 3
...The file is a configuration...
$ pipelens why p
PICK\0\0\0\0
= 3
...The file is a checkpoint, and no text of a program: `piperench move FILE SAMPLES`...
$ pipelens why p
\u{feff}input x:8;
= 3
p:1:1: syntax: token 0
  1 | \\xef\\xbb\\xbfinput x:8;
    | ^^^^
...The file begins with a byte order mark (BOM): save it without one.
...
";

#[test]
fn files_that_are_no_programs(rt: HostRuntime) -> Result<(), AllocError> {
    check_calls(&rt, rt.alloc(), "", FILES)
}
