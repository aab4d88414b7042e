//! The phases of a job's document as JSON in a window.
ghost use Rattle.std.specs.Prelude.{◌≡◌, false, map};
ghost use Rattle.json.specs.Print.{quoted};
ghost use Rattle.serde_json.specs.Written.{comma_if, compact_text};
ghost use Rattle.mt_jobdoc.specs.Printed as printed;
ghost use Rattle.mt_jobdoc.specs.Printed.{assets_data, phase_data, phases_data};
ghost use Rattle.mt_path.specs.AccountPath.{path_text};
ghost use Rattle.mt_jobtext.specs.Members.{count_text, init_text, listed};
ghost use Rattle.mt_jobtext.specs.Windows.{Puts};

use crate::names::put_path;
use crate::quotes::{put_number, put_quoted};
use crate::window::Window;
use mt_base::Text;
use mt_path::Path;
use mt_types::{JobDocument, Phase, PhaseKind};

/// Adds the phases of a document.
pub(crate) fn put_phases(window: &mut Window, login: &str, document: &JobDocument)
    ensures { Puts (compact_text (phases_data login.now document.now)) window.old window.new }
{
    window.put(b"[");
    put_each_phase(window, login, document.phases.as_slice());
    window.put(b"]");
}

// Adds each phase, with commas between them.
fn put_each_phase(window: &mut Window, login: &str, phases: &[Phase])
    ensures { Puts (listed false (map (λ p. compact_text (phase_data login.now p)) phases.now)) window.old window.new }
{
    for k in 0..phases.len() {
        put_comma(window, k > 0);
        put_phase(window, login, &phases[k]);
    }
}

// Adds a comma where something stands before.
fn put_comma(window: &mut Window, later: bool)
    ensures { Puts (comma_if later) window.old window.new }
{
    if later {
        window.put(b",");
    }
}

// Adds a phase.
#[tactic(auto, unfolding(mt_jobdoc::specs::Printed::phase_data, json::specs::Print::escape_byte))]
fn put_phase(window: &mut Window, login: &str, phase: &Phase)
    ensures { Puts (compact_text (phase_data login.now phase.now)) window.old window.new }
{
    window.put(b"{\"assets\":");
    put_assets(window, login, phase.assets.as_slice());
    put_count(window, phase.kind);
    window.put(b",\"exec\":");
    put_quoted(window, phase.exec.as_bytes());
    put_init(window, &phase.init);
    window.put(b",\"type\":");
    put_quoted(window, type_name(phase.kind).as_bytes());
    window.put(b"}");
}

// Adds the member of the number of reducers behind another, where there are reducers.
fn put_count(window: &mut Window, kind: PhaseKind)
    ensures { Puts (count_text kind) window.old window.new }
{
    if let PhaseKind::Reduce { count } = kind {
        window.put(b",\"count\":");
        put_number(window, count as u64);
    }
}

// Adds the member of a command line that is run before, where there is one.
fn put_init(window: &mut Window, init: &Option<Text>)
    ensures { Puts (init_text init.now) window.old window.new }
{
    if let Some(text) = init {
        window.put(b",\"init\":");
        put_quoted(window, text.as_bytes());
    }
}

// The word for a kind of phases.
fn type_name(kind: PhaseKind) -> &'static str
    ensures { result.now ≡ printed.type_name kind }
{
    match kind {
        PhaseKind::Map => "map",
        PhaseKind::Reduce { .. } => "reduce",
    }
}

// Adds the names of assets.
fn put_assets(window: &mut Window, login: &str, assets: &[Path])
    ensures { Puts (compact_text (assets_data login.now assets.now)) window.old window.new }
{
    window.put(b"[");
    put_each_asset(window, login, assets);
    window.put(b"]");
}

// Adds each name, with commas between them.
fn put_each_asset(window: &mut Window, login: &str, assets: &[Path])
    ensures { Puts (listed false (map (λ p. quoted (path_text login.now p)) assets.now)) window.old window.new }
{
    for k in 0..assets.len() {
        put_comma(window, k > 0);
        put_asset(window, login, &assets[k]);
    }
}

// Adds a name in quotes.
fn put_asset(window: &mut Window, login: &str, asset: &Path)
    ensures { Puts (quoted (path_text login.now asset.now)) window.old window.new }
{
    window.put(b"\"");
    put_path(window, login, asset);
    window.put(b"\"");
}
