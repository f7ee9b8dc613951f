//! Findings as JSON.

use crate::calls::check_calls;
use std::alloc::AllocError;

/// Programs with the object of each.
const OBJECTS: &str = "\
$ pipelens why p --json
input x:8;
output y = x;
= 0
$ pipelens why p --json
input x:8;
output y = x + z;
= 3
{\"file\":\"p\",\"line\":2,\"column\":16,\"end_column\":17,\"severity\":\"error\",\"code\":\"scope-2\",\"message\":\"`z` is used before it is assigned...
$ pipelens why p --json
input x:8
output y = x;
= 3
{\"file\":\"p\",\"line\":2,\"column\":1,\"end_column\":7,\"severity\":\"error\",\"code\":\"syntax\",\"message\":\"`output` cannot stand here.\\nWhat could: `;`.\\nPerhaps a `;` is missing before it.\"}
$ pipelens why p --json
input x:8;
output y = x
= 3
{\"file\":\"p\",\"line\":2,\"column\":13,\"end_column\":13,\"severity\":\"error\",\"code\":\"syntax\",\"message\":\"...
$ pipelens why p --json
input x:8;
rec s = 0 by s@1 + x;
output y = s;
= 4
{\"file\":\"p\",\"line\":2,\"column\":18,\"end_column\":19,\"severity\":\"error\",\"code\":\"no-width\",\"message\":\"...
$ pipelens why p --json
input x:64;
rec s:64 = 1 by (s@1 ^ x) & s@1;
output y = s;
= 5
{\"file\":\"p\",\"line\":2,\"column\":1,\"end_column\":4,\"severity\":\"error\",\"code\":\"no-fit\",\"message\":\"...
$ pipelens why p --json --fabric wide
input a:128;
input b:128;
input c:8;
output y = a;
= 6
{\"file\":\"p\",\"line\":3,\"column\":1,\"end_column\":6,\"severity\":\"error\",\"code\":\"limit-input-bytes\",\"message\":\"All inputs of a sample together have more bytes than a stage has columns.\\nDeclare smaller widths, or split the program.\"}
";

#[test]
fn findings_as_json(rt: HostRuntime) -> Result<(), AllocError> {
    check_calls(&rt, rt.alloc(), "", OBJECTS)
}
