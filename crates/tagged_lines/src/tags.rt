//! A line's tag, and its id.
ghost use Rattle.std.specs.Prelude.{◌≡◌, ◌==◌, Some, position};
ghost use Rattle.std.specs.List.{list_all};
ghost use Rattle.tagged_lines.specs.Tags.{IsOwner, has_id, is_good_id, is_id_byte, rest_of, tag_of};

/// The place of a line's first blank.
fn blank_at(line: &[u8]) -> Option<usize>
    ensures { result ≡ position (λ byte. byte == 32) line.now }
{
    line.iter().position(|byte| *byte == b' ')
}

/// A line's tag, and what the line says: the bytes before its first blank and those after it. A
/// line without a blank is all tag.
pub fn split_tag(line: &[u8]) -> (&[u8], &[u8])
    ensures tag { result.0.now ≡ tag_of line.now }
    ensures rest { result.1.now ≡ rest_of line.now }
{
    match blank_at(line) {
        Some(place) => (&line[..place], &line[place + 1..]),
        None => line.split_at(line.len()),
    }
}

/// The place of a tag's first slash.
fn slash_at(tag: &[u8]) -> Option<usize>
    ensures { result ≡ position (λ byte. byte == 47) tag.now }
{
    tag.iter().position(|byte| *byte == b'/')
}

/// The owner of a tag, if the tag has no id or a good one: what is before its first slash. An id is
/// what is after it, 1 to 32 letters, digits, `-` and `_`. Else `None`.
pub fn owner_of(tag: &[u8]) -> Option<&[u8]>
    ensures { IsOwner tag.now result }
{
    match slash_at(tag) {
        Some(place) => {
            if is_id(&tag[place + 1..]) {
                Some(&tag[..place])
            } else {
                None
            }
        }
        None => Some(tag),
    }
}

/// Whether a tag has an id.
pub fn has_id(tag: &[u8]) -> bool
    ensures { result ≡ has_id tag.now }
{
    slash_at(tag).is_some()
}

/// Whether these bytes can be an id.
fn is_id(id: &[u8]) -> bool
    ensures { result ≡ is_good_id (Some id.now) }
{
    !id.is_empty() && id.len() <= 32 && are_id_bytes(id)
}

fn are_id_bytes(id: &[u8]) -> bool
    ensures { result ≡ list_all is_id_byte id.now }
{
    id.iter().all(|byte| is_id_byte(*byte))
}

fn is_id_byte(byte: u8) -> bool
    ensures { result ≡ is_id_byte byte }
{
    byte.is_ascii_alphanumeric() || (byte == b'-' || byte == b'_')
}
