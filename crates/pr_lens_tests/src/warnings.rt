//! Warnings that are left out, and warnings as JSON.

use crate::calls::check_calls;
use std::alloc::AllocError;

/// Warnings that are left out, and warnings as JSON.
const FORMS: &str = "\
$ pipelens why p --no-warnings
input x:8;
let a = signed(12);
output y = x;
= 0
accepted
$ pipelens why p --json --no-warnings
input x:8;
let a = signed(12);
output y = x;
= 0
$ pipelens why p --json
input x:8;
let a = signed(12);
output y = x;
= 0
{\"file\":\"p\",\"line\":2,\"column\":5,\"end_column\":6,\"severity\":\"warning\",\"code\":\"unneeded\",\"message\":\"No result needs `a`: neither an output nor what a function returns is made of it.\\nTake it out, or see whether it should stand in the place of another name.\"}
{\"file\":\"p\",\"line\":2,\"column\":9,\"end_column\":19,\"severity\":\"warning\",\"code\":\"signed-constant\",\"message\":\"This is -4: `signed` takes the highest bit of a number as its sign, and 12 has the width 4.\\nWrite 12 without `signed` for the number itself, which operators take as it is. A negative one has a declared width: with `let k:8 = 252;` `signed(k)` is -4.\"}
$ pipelens why p --no-warnings
input x:8;
let a = signed(12);
output y = x + z;
= 3
p:3:16: scope: rule 2 item 2
...
";

#[test]
fn warnings_and_json(rt: HostRuntime) -> Result<(), AllocError> {
    check_calls(&rt, rt.alloc(), "", FORMS)
}
