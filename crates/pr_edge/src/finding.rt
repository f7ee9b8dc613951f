//! The file of a name.
ghost use Rattle.std.specs.Prelude.{◌≡◌, [], Some, None, IfSome, IfNone, unwrap_or};
ghost use Rattle.pr_edge.specs.Named.{file_in, IsFirst};

/// The place and the bytes of the first file of this name.
pub fn find<'a>(files: &'a [(String, Vec<u8>)], name: &str) -> Option<(usize, &'a [u8])>
    ensures none { IfNone result (file_in files.now name.now ≡ None) }
    ensures bytes { IfSome result (λ r. file_in files.now name.now ≡ Some r.1.now) }
    ensures place { IfSome result (λ r. IsFirst files.now name.now r.0) }
{
    for (i, file) in files.iter().enumerate() {
        if file.0.as_str() == name {
            return Some((i, file.1.as_slice()));
        }
    }
    None
}

/// The bytes of the first file of this name, and none where there is no such file.
pub fn bytes_of<'a>(files: &'a [(String, Vec<u8>)], name: &str) -> &'a [u8]
    ensures { result.now ≡ unwrap_or (file_in files.now name.now) [] }
{
    match find(files, name) {
        Some((_, bytes)) => bytes,
        None => &[],
    }
}
