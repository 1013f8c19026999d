//! Laws of the four calls. Each function's contract is the law, and its body does nothing.

ghost use Rattle.std.specs.Prelude.{◌≡◌, ℕ, List, codes};
ghost use Rattle.esb_path.specs.Paths.{clean_path, joined_path, parent_path, relative_path, IsClean};

/// What is cleaned is clean, a clean path stays as it is, and so cleaning twice is cleaning once.
pub fn clean_paths()
    ensures cleaned { (path : List ℕ) → IsClean (clean_path path) }
    ensures kept { (path : List ℕ) → IsClean path → clean_path path ≡ path }
    ensures again { (path : List ℕ) → clean_path (clean_path path) ≡ clean_path path }
{}

/// A parent is the path's own way up, and is clean.
pub fn parents()
    ensures up { (path : List ℕ) → parent_path path ≡ joined_path path (codes "..") }
    ensures cleaned { (path : List ℕ) → IsClean (parent_path path) }
{}

/// The way from a folder to a path leads there.
pub fn relative_paths()
    ensures leads { (folder path : List ℕ) → joined_path folder (relative_path folder path) ≡ clean_path path }
    ensures clean { (folder path : List ℕ) → IsClean folder → IsClean path → joined_path folder (relative_path folder path) ≡ path }
{}
