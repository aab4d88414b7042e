//! Laws of paths: a printed path is read again, and the order is total and exact.
ghost use Rattle.std.specs.Prelude.{◌≡◌, ◌↔◌, List, ℕ, Ok, Some, IfOk, IfErr, IsTrue};
ghost use Rattle.std.specs.Cmp.{IsTotalOrder};
ghost use Rattle.std.specs.Ordering.{eq_by_cmp};
ghost use Rattle.mt_path.specs.AccountPath.{AccountPath, IsLogin, IsPath, IsUnder, parent_of, path_text};
ghost use Rattle.mt_path.specs.PathOrder.{path_cmp};
ghost use Rattle.mt_path.specs.Names.{child_of, path_of_text};

use crate::error::PathError;
use crate::path::Path;
use std::alloc::Global;
use std::cmp::Ordering;

/// The text of a path, read as a name in a text, is the path, unless memory is wanting.
pub fn printed_again(alloc: Global, login: &str, path: &Path) -> Result<Path, PathError>
    requires { IsLogin login.now }
    ensures same { IfOk result (λ p. p ≡ path.now) }
    ensures memory { IfErr result (λ e. e ≡ PathError.Memory) }
{
    let text = path.print(alloc, login)?;
    Path::plain(alloc, login, text.as_bytes())
}

/// A path has one text, and its text has one path.
pub fn one_text_a_path()
    ensures read { (login : List ℕ) (p : AccountPath) → IsLogin login → IsPath p
        → path_of_text login (path_text login p) ≡ Ok p }
    ensures alike { (login : List ℕ) (p q : AccountPath) → IsPath p → IsPath q
        → path_text login p ≡ path_text login q → p ≡ q }
{}

/// The order is total, and only a path itself is equal to it; a path is below those under it.
pub fn order_is_exact()
    ensures total { IsTotalOrder path_cmp }
    ensures equal { (p q : AccountPath) → (path_cmp p q ≡ Ordering.Equal) ↔ (p ≡ q) }
    ensures same { (p q : AccountPath) → IsTrue (eq_by_cmp path_cmp p q) ↔ (p ≡ q) }
    ensures above { (p q : AccountPath) → IsUnder p q → path_cmp q p ≡ Ordering.Less }
{}

/// A child is one below its parent.
pub fn child_is_below()
    ensures parent { (p child : AccountPath) (name : List ℕ) → child_of p name ≡ Ok child → parent_of child ≡ Some p }
    ensures under { (p child : AccountPath) (name : List ℕ) → child_of p name ≡ Ok child → IsUnder child p }
{}
