//! The target of a request: a path, and of a listing the query of its page.
ghost use Rattle.std.specs.Prelude.{◌≡◌, ◌<◌, ◌^◌, ◌∷◌, ◌++◌, codes, IfOk, OnOk, string_bytes};
ghost use Rattle.std.specs.Option.{option_copied};
ghost use Rattle.mt_ident.specs.Identifiers.{identifier_text};
ghost use Rattle.mt_path.specs.AccountPath.{path_text, slash};
ghost use Rattle.mt_ask.specs.Requests.{directory_of, place_of, query_text, target_of};
ghost use Rattle.mt_ask.specs.Words.{IsAsk};

use crate::ask::{Ask, PageAsk};
use crate::escapes::put_escaped;
use mt_base::{Text, ascii};
use mt_ident::uuid_text;
use mt_path::{Area, Path};
use std::alloc::{AllocError, Global};

/// The kind of the identifiers of jobs.
const JOB: u8 = 2;

// The text of a path below the folder of a job.
fn live_text(alloc: Global, login: &str, number: u64, behind: &str) -> Result<Text, AllocError>
    requires { number < 2 ^ 62 }
    ensures { IfOk result (λ t. t ≡ slash ∷ login.now ++ codes "/jobs/" ++ identifier_text 2 number ++ behind.now) }
{
    let id = uuid_text(JOB, number);
    let mut text = String::from_str(alloc, "/")?;
    text.push_str(login)?;
    text.push_str("/jobs/")?;
    text.push_str(ascii(&id))?;
    text.push_str(behind)?;
    Ok(Text::from_string(text))
}

// The text of the directory of a page, or of the ask's own.
fn directory_text(
    alloc: Global,
    login: &str,
    path: &Path,
    page: Option<&PageAsk>,
) -> Result<Text, AllocError>
    ensures { IfOk result (λ t. t ≡ path_text login.now (directory_of path.now (option_copied page.entry))) }
{
    match page {
        Some(page) => page.directory.print(alloc, login),
        None => path.print(alloc, login),
    }
}

// The text of the path of an ask.
#[tactic(auto, using(crate::proofs::LivePaths::live_text_is))]
fn place_text(
    alloc: Global,
    login: &str,
    ask: &Ask,
    page: Option<&PageAsk>,
) -> Result<Text, AllocError>
    requires { IsAsk ask.now }
    ensures { IfOk result (λ t. t ≡ path_text login.now (place_of ask.now (option_copied page.entry))) }
{
    match ask {
        Ask::List(path) | Ask::Find(path) => directory_text(alloc, login, path, page),
        Ask::Get(path)
        | Ask::Put(path)
        | Ask::MakeDirectory(path)
        | Ask::Remove(path)
        | Ask::Link { path, .. } => path.print(alloc, login),
        Ask::CreateJob => Path::root(alloc, Area::Jobs).print(alloc, login),
        Ask::AddInputs(number) => live_text(alloc, login, *number, "/live/in"),
        Ask::EndInput(number) => live_text(alloc, login, *number, "/live/in/end"),
        Ask::CancelJob(number) => live_text(alloc, login, *number, "/live/cancel"),
        Ask::JobStatus(number) => live_text(alloc, login, *number, "/live/status"),
        Ask::JobOutputs(number) => live_text(alloc, login, *number, "/live/out"),
    }
}

// Appends the query of an ask.
fn put_query(out: &mut String, ask: &Ask, page: Option<&PageAsk>) -> Result<(), AllocError>
    ensures { OnOk result (string_bytes out.new ≡ string_bytes out.old ++ query_text ask.now (option_copied page.entry)) }
{
    if !ask.is_listing() {
        return Ok(());
    }
    out.push_str("?limit=256")?;
    if let Some(page) = page
        && let Some(marker) = &page.marker
    {
        out.push_str("&marker=")?;
        put_escaped(out, marker.as_slice())?;
    }
    Ok(())
}

/// Appends the target of an ask.
pub(crate) fn put_target(
    out: &mut String,
    alloc: Global,
    login: &str,
    ask: &Ask,
    page: Option<&PageAsk>,
) -> Result<(), AllocError>
    requires { IsAsk ask.now }
    ensures { OnOk result (string_bytes out.new ≡ string_bytes out.old ++ target_of login.now ask.now (option_copied page.entry)) }
{
    let place = place_text(alloc, login, ask, page)?;
    put_escaped(out, place.as_bytes())?;
    put_query(out, ask, page)
}
