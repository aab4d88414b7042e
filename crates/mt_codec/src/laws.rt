//! Laws of commands as bytes.
ghost use Rattle.std.specs.Prelude.{◌≡◌, ◌≤◌, ◌*◌, ◌++◌, ◌∷◌, ◌&&◌, ◌==◌, false, nat_le, List, ℕ, length, IfOk, IfErr};
ghost use Rattle.mt_types.specs.declared.body.Body.{Body};
ghost use Rattle.mt_types.specs.declared.command.Command.{Command};
ghost use Rattle.mt_codec.specs.Spelling.{HasSpelling, IsWithinLimits, spelling, undigested};
ghost use Rattle.mt_codec.specs.Readers.{is_few_assets, is_few_fields, is_few_parts, is_few_records, is_phases, is_short_stderr};
ghost use Rattle.mt_codec.specs.Pieces.{is_piece, size_bound, spelled_size};
ghost use Rattle.mt_types.specs.Values.{command_with};
ghost use Rattle.mt_types.specs.WellMade.{IsWellMade};

use crate::decoding::decode;
use crate::encoding::encode;
use crate::error::DecodeError;
use mt_types::{Body, Command};
use std::alloc::Global;

/// A command that is encoded is decoded again, apart from the digests of its bodies.
pub fn decoded_again(alloc: Global, command: &Command<Body>) -> Result<Command<Body>, DecodeError>
    requires { HasSpelling command.now }
    ensures again { IfOk result (λ c. c ≡ undigested command.now) }
    ensures memory { IfErr result (λ e. e ≡ DecodeError.Memory) }
{
    let bytes = encode(alloc, command)?;
    decode(alloc, &bytes)
}

/// Commands with one spelling are one, apart from digests, and digests are not spelled.
pub fn one_spelling()
    ensures alike { (c d : Command Body) → HasSpelling c → HasSpelling d → spelling c ≡ spelling d → undigested c ≡ undigested d }
    ensures digests { (c : Command Body) → spelling (undigested c) ≡ spelling c }
{}

/// Bytes that begin with a command begin with that command alone: no spelling begins another.
pub fn no_spelling_begins_another()
    ensures { (c d : Command Body) (xs ys : List ℕ) → HasSpelling c → HasSpelling d
        → spelling c ++ xs ≡ spelling d ++ ys → (undigested c ≡ undigested d) × (xs ≡ ys) }
{}

/// What has a spelling is within its limits, so a command that was decoded may be encoded.
pub fn spelled_within_limits()
    ensures { (c : Command Body) → HasSpelling c → IsWithinLimits c }
{}

/// What has a spelling is well made: its paths are paths, its document is one, and its records are few enough.
pub fn spelled_is_well_made()
    ensures { (c : Command Body) → HasSpelling c → IsWellMade c }
{}

/// How many bytes a command has at most, by its fields.
pub fn sizes()
    ensures { (c : Command Body) → HasSpelling c → length (spelling c) ≤ size_bound c }
{}

/// The length of a spelling depends on no body: it is the size of the command, over references and over bytes.
pub fn sizes_are_read()
    ensures size { (c : Command Body) → length (spelling c) ≡ spelled_size c }
    ensures same { (f : Body → Body) (c : Command Body) → length (spelling (command_with f c)) ≡ length (spelling c) }
    ensures read { (f : Body → List ℕ) (c : Command Body) → spelled_size (command_with f c) ≡ spelled_size c }
{}

/// No command is a piece.
pub fn no_command_is_a_piece()
    ensures { (c : Command Body) → is_piece (spelling c) ≡ false }
{}

/// What the format counts has these bounds: components of a path, fields of metadata, phases, assets of a phase, records of a task, bytes of
/// standard error, and bytes of a piece.
pub fn constants_are()
    ensures parts { (n : ℕ) → is_few_parts n ≡ nat_le (2 * n) 1024 }
    ensures fields { (n : ℕ) → is_few_fields n ≡ nat_le n 100 }
    ensures phases { (n : ℕ) → is_phases n ≡ (nat_le 1 n && nat_le n 16) }
    ensures assets { (n : ℕ) → is_few_assets n ≡ nat_le n 64 }
    ensures records { (n : ℕ) → is_few_records n ≡ nat_le n 4095 }
    ensures stderr { (n : ℕ) → is_short_stderr n ≡ nat_le n 1024 }
    ensures piece { (mark : ℕ) (bytes : List ℕ) → is_piece (mark ∷ bytes) ≡ ((mark == 0) && (nat_le 1 (length bytes) && nat_le (length bytes) 65536)) }
{}
