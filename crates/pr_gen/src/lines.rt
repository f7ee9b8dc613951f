// The lists of numbers in the texts.
ghost use Rattle.std.specs.Prelude.{◌≡◌, ◌++◌, ◌≤◌, OnOk, decimal};
ghost use Rattle.pr_gen.specs.Texts.{entry_of, table_text, samples_text};

use itoa::Buffer;
use std::alloc::AllocError;

/// Appends the number of turn `i`.
fn put_entry(text: &mut Vec<u8>, i: u32) -> Result<(), AllocError>
    requires { i ≤ 1000 }
    ensures { OnOk result (text.new.items ≡ text.old.items ++ decimal (entry_of i)) }
{
    let mut buffer = Buffer::new();
    let entry = (37 * i + 11) % 256;
    text.extend_from_slice(buffer.format(entry).as_bytes())
}

/// Appends the `k` numbers of the table, with a comma and a space between.
pub fn put_table(text: &mut Vec<u8>, k: u32) -> Result<(), AllocError>
    requires least { 1 ≤ k }
    requires greatest { k ≤ 1000 }
    ensures { OnOk result (text.new.items ≡ text.old.items ++ table_text k) }
{
    put_entry(text, 1)?;
    for i in 1..k {
        text.extend_from_slice(b", ")?;
        put_entry(text, i + 1)?;
    }
    Ok(())
}

/// Appends the thousand lines of the samples.
pub fn put_samples(text: &mut Vec<u8>) -> Result<(), AllocError>
    ensures { OnOk result (text.new.items ≡ text.old.items ++ samples_text) }
{
    let mut buffer = Buffer::new();
    for j in 0u32..1000 {
        let number = (40503 * j + 12345) % 65536;
        text.extend_from_slice(buffer.format(number).as_bytes())?;
        text.extend_from_slice(b"\n")?;
    }
    Ok(())
}
