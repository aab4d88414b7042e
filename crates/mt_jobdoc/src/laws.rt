//! Laws: what is read is a document.
ghost use Rattle.std.specs.Prelude.{◌≡◌, List, ℕ, Ok};
ghost use Rattle.mt_types.specs.declared.document.JobDocument.{JobDocument};
ghost use Rattle.mt_types.specs.WellMade.{IsDocument};
ghost use Rattle.mt_jobdoc.specs.Document.{document_of};

/// What is read from bytes is a document: 1 to 16 phases, with 1 to 1,024 reducers, command lines within their limits, and at
/// most 64 assets, each named by a path.
pub fn documents_are_documents()
    ensures { (login bytes : List ℕ) (d : JobDocument) → document_of login bytes ≡ Ok d → IsDocument d }
{}
