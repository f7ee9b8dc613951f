//! Lists, line by line.

use pr_tool_share::{Entry, ListFault, read_list};
use std::alloc::Global;
use std::process::Abort;
use std::test::Fail;

/// The line at which a list is bad.
fn bad_line(alloc: Global, text: &[u8]) -> Option<u64> {
    match read_list(alloc, text) {
        Err(ListFault::BadList { line }) => Some(line),
        _ => None,
    }
}

/// Whether a program of a list has these names and this quota.
fn is_entry(entry: &Entry, program: &str, samples: &str, quota: u32) -> bool {
    entry.program.as_str() == program && entry.samples.as_str() == samples && entry.quota == quota
}

#[test]
fn names_and_quotas(rt: HostRuntime) -> Result<(), Fail> {
    let text = b"a.pipe a.txt 1\n\n \t\r\nb\rc \t d 1000000 \r\n\xc3\xa9 x 10";
    let entries = read_list(rt.alloc(), text)
        .ok()
        .expect(&rt, "a lawful list");
    assert_eq!(rt; entries.len(), 3);
    assert!(rt; is_entry(&entries[0], "a.pipe", "a.txt", 1));
    assert!(rt; is_entry(&entries[1], "b\rc", "d", 1_000_000));
    assert!(rt; is_entry(&entries[2], "\u{e9}", "x", 10));
    Ok(())
}

#[test]
fn bad_lines(rt: HostRuntime) -> Result<(), Fail> {
    let rows: [(&[u8], u64); 12] = [
        (b"", 1),
        (b"\n", 2),
        (b" ", 2),
        (b"\r\n\t", 3),
        (b" a b 1\n", 1),
        (b"a b 1\na b\n", 2),
        (b"a b 1 c", 1),
        (b"a b 0", 1),
        (b"a b 1000001", 1),
        (b"a b 1\n\na b 01", 3),
        (b"\xff b 1\n", 1),
        (
            b"a b 1\na b 1\na b 1\na b 1\n\na b 1\na b 1\na b 1\na b 1\na b 1\n",
            10,
        ),
    ];
    for (text, line) in rows {
        assert_eq!(rt; bad_line(rt.alloc(), text), Some(line));
    }
    Ok(())
}
