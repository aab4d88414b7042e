//! The text of a page of a directory.
ghost use Rattle.std.specs.Prelude.{◌≡◌, All, IfOk, map};
ghost use Rattle.std.specs.List.{flat_map};
ghost use Rattle.mt_live.specs.LiveTexts.{IsEntryListable, page_text};
ghost use Rattle.mt_model.specs.Listing.{listing};
ghost use Rattle.mt_model.specs.Rows.{row_of};
ghost use Rattle.mt_path.specs.AccountPath.{IsComponent};
ghost use Rattle.mt_tree.specs.Lent.{lent};
ghost use Rattle.mt_answer.specs.Judging.{len_of};
ghost use Rattle.mt_answer.specs.Laws.{AreListable};
ghost use Rattle.mt_answer.specs.Lines.{line_of};

use mt_base::Bytes;
use mt_live::page_line;
use mt_path::Path;
use mt_request::Page;
use mt_tree::{Listed, Tree};
use mt_types::Body;
use std::alloc::{AllocError, Global};
use std::str;

/// The text of a page of a directory: a line a child, of what the tree lends of it. It holds one line at a time beside
/// the text, and copies no path and no metadata.
pub fn page_of(
    alloc: Global,
    tree: &Tree<Body>,
    path: &Path,
    page: &Page,
) -> Result<Bytes, AllocError>
    requires { AreListable tree.now }
    ensures { IfOk result (λ text. text ≡ page_text len_of (map row_of (listing tree.now path.now page.now.marker page.now.limit))) }
{
    let marker = page.marker.as_slice();
    let children = tree.page(alloc, path, marker, page.limit as usize)?;
    text_of(alloc, children.as_slice())
}

// The lines of children.
fn text_of(alloc: Global, children: &[Listed<'_, Body>]) -> Result<Bytes, AllocError>
    requires names { All (λ x. IsComponent x.name.now) children.now }
    requires entries { All (λ x. IsEntryListable x.entry.now) children.now }
    ensures { IfOk result (λ text. text ≡ flat_map line_of (map lent children.now)) }
{
    let mut out = Vec::new(alloc);
    for child in children {
        let line = page_line(alloc, name_of(child), child.entry)?;
        out.extend_from_slice(line.as_bytes())?;
    }
    Ok(Bytes::from_vec(out))
}

// The name of a child, which is a text.
fn name_of<'a>(child: &Listed<'a, Body>) -> &'a str
    requires { IsComponent child.now.name.now }
    ensures { result.now ≡ child.now.name.now }
{
    match str::from_utf8(child.name) {
        Ok(name) => name,
        Err(_) => unreachable!(),
    }
}
