//! The last id of each name.
ghost use Rattle.std.specs.Prelude.{◌≡◌, ◌&&◌, [], ◌∷◌, ◌++◌, None, Some, IfOk, OnOk, MatchOption, ◌==◌, position};
ghost use Rattle.std.specs.List.{filter_map};
ghost use Rattle.live_log.specs.Prelude.{physical_lines, texts, has_id as tag_has_id, id_of, is_good_id, owner_of as tag_owner, with_name};
ghost use Rattle.live_log.specs.LastTags.{last_tags, named_tag, newest, said_tag, with_tag};

use line_text::{NameSet, split_line};
use std::alloc::{AllocError, Global};
use tagged_lines::{has_id, owner_of, split_tag};

/// What the comment begins with that says a name's last tag.
pub(crate) const LAST: &[u8] = b"# last ";

/// The last tag of each name that has an id in the lines of a log, in their order. The comments of
/// a shorter log count as the lines whose tags they say.
pub(crate) fn last_tags(alloc: Global, log: &[u8]) -> Result<Vec<&[u8]>, AllocError>
    ensures { IfOk result (λ tags. texts tags.items ≡ last_tags (physical_lines log.now)) }
{
    let mut all = named_tags(alloc, log)?;
    all.reverse();
    let mut tags = newest_of(alloc, all.as_slice())?;
    tags.reverse();
    Ok(tags)
}

/// The tags of names that have an id, in the order of the lines.
fn named_tags(alloc: Global, log: &[u8]) -> Result<Vec<&[u8]>, AllocError>
    ensures { IfOk result (λ tags.
        texts tags.items ≡ filter_map named_tag (physical_lines log.now)) }
{
    let mut tags = Vec::new(alloc);
    let mut rest = log;
    while !rest.is_empty() {
        let (line, after) = split_line(rest);
        add_tag(&mut tags, line)?;
        rest = after;
    }
    Ok(tags)
}

/// Adds a line's tag, if it is one of a name, with an id.
fn add_tag<'l>(tags: &mut Vec<&'l [u8]>, line: &'l [u8]) -> Result<(), AllocError>
    ensures { OnOk result (texts tags.new.items
        ≡ with_tag (texts tags.old.items) (named_tag line.now)) }
{
    if let Some(tag) = named_tag(line) {
        tags.push(tag)?;
    }
    Ok(())
}

/// The tag that a line says, if it is one of a name, with an id.
fn named_tag(line: &[u8]) -> Option<&[u8]>
    ensures { MatchOption result (named_tag line.now ≡ None)
        (λ tag. named_tag line.now ≡ Some tag.now) }
{
    let tag = said_tag(line);
    if tag.starts_with(b"@") && is_with_id(tag) {
        Some(tag)
    } else {
        None
    }
}

/// Whether a tag has an id that is a good one.
fn is_with_id(tag: &[u8]) -> bool
    ensures { result ≡ (tag_has_id tag.now && is_good_id (id_of tag.now)) }
{
    has_id(tag) && owner_of(tag).is_some()
}

/// The tag that a line says: its own, or that of a comment of a shorter log.
fn said_tag(line: &[u8]) -> &[u8]
    ensures { result.now ≡ said_tag line.now }
{
    let said = if line.starts_with(LAST) {
        &line[LAST.len()..]
    } else {
        line
    };
    let (tag, _) = split_tag(said);
    tag
}

/// The first of the tags of each owner.
fn newest_of<'l>(alloc: Global, tags: &[&'l [u8]]) -> Result<Vec<&'l [u8]>, AllocError>
    ensures { IfOk result (λ found. texts found.items ≡ newest [] (texts tags.now)) }
{
    let mut owners = NameSet::new(alloc);
    let mut found = Vec::new(alloc);
    for tag in tags {
        add_newest(&mut owners, &mut found, tag)?;
    }
    Ok(found)
}

/// Adds a tag if no tag of its owner was found, and its owner.
fn add_newest<'l>(
    owners: &mut NameSet<'l>,
    found: &mut Vec<&'l [u8]>,
    tag: &'l [u8],
) -> Result<(), AllocError>
    ensures owners { OnOk result (owners.new ≡ with_name owners.old (tag_owner tag.now)) }
    ensures found { OnOk result (texts found.new.items ≡ texts found.old.items
        ++ newest owners.old (tag.now ∷ [])) }
{
    let owner = owner_part(tag);
    if owners.add(owner)? {
        found.push(tag)?;
    }
    Ok(())
}

/// The bytes of a tag before its first slash.
fn owner_part(tag: &[u8]) -> &[u8]
    ensures { result.now ≡ tag_owner tag.now }
{
    let (owner, _) = tag.split_at(slash_at(tag).unwrap_or(tag.len()));
    owner
}

/// The place of a tag's first slash.
fn slash_at(tag: &[u8]) -> Option<usize>
    ensures { result ≡ position (λ byte. byte == 47) tag.now }
{
    tag.iter().position(|byte| *byte == b'/')
}
