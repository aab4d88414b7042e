//! The command that does what a request asks for.
ghost use Rattle.std.specs.Prelude.{◌≡◌, ◌≤◌, IfSome, IsTrue};
ghost use Rattle.mt_codec.specs.Spelling.{IsWithinLimits};
ghost use Rattle.mt_model.specs.Rows.{at, is_directory};
ghost use Rattle.mt_request.specs.Laws.{FitsDoing};
ghost use Rattle.mt_types.specs.Kinds.{OnRows, kind_of};
ghost use Rattle.mt_types.specs.Limits.{is_placed};
ghost use Rattle.mt_answer.specs.Answer.{command_of};

use mt_base::LAST_MOMENT;
use mt_request::Doing;
use mt_tree::Tree;
use mt_types::{Body, Command, Entry, Path};

/// The command that does what a request asks for, at a moment in seconds since 1970: none where something is looked at, or where a
/// directory stands already. The body is that of an object that is put; any other is dropped. What is asked for is moved into
/// the command, and no memory is taken.
pub fn command_of(tree: &Tree<Body>, doing: Doing, body: Body, moment: u64) -> Option<Command<Body>>
    requires fits { FitsDoing doing }
    requires placed { IsTrue (is_placed body) }
    requires moment { moment ≤ LAST_MOMENT }
    ensures command { result ≡ command_of tree.now doing body moment }
    ensures kind { IfSome result (λ c. kind_of c ≡ OnRows) }
    ensures limits { IfSome result IsWithinLimits }
{
    match doing {
        Doing::PutObject {
            path,
            content_type,
            durability,
            metadata,
        } => Some(Command::Put {
            path,
            content_type,
            body,
            durability,
            metadata,
            moment,
        }),
        Doing::PutDirectory { path } => {
            if is_directory(tree, &path) {
                None
            } else {
                Some(Command::MakeDirectory { path, moment })
            }
        }
        Doing::PutLink { path, source } => Some(Command::Link {
            path,
            source,
            moment,
        }),
        Doing::Remove { path } => Some(Command::Delete { path, moment }),
        Doing::Nothing => None,
        Doing::Look { .. } => None,
    }
}

fn is_directory(tree: &Tree<Body>, path: &Path) -> bool
    ensures { result ≡ is_directory (at tree.now path.now) }
{
    match tree.get(path) {
        Some(Entry::Directory { .. }) => true,
        _ => false,
    }
}
