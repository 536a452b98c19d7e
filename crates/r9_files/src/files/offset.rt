//! Reading by offset (read(5)).

ghost use Rattle.std.specs.Prelude.{◌≡◌, take, drop};

/// The bytes of a file's contents from an offset on, at most `count`: none where the offset is behind their end.
pub fn at_offset(contents: &[u8], offset: u64, count: u32) -> &[u8]
    ensures { result.now ≡ take count (drop offset contents.now) }
{
    let start = contents.len().min(offset as usize);
    let rest = &contents[start..];
    &rest[..rest.len().min(count as usize)]
}
