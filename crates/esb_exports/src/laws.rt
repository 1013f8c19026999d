//! Laws of keys and targets. Each function's contract is the law, and its body does nothing.

ghost use Rattle.std.specs.Prelude.{◌≡◌, ◌≢◌, ℕ, ◌||◌, false, List, [], ◌∷◌, ◌++◌, IsTrue, Some, None, Ok};
ghost use Rattle.std.specs.List.{All};
ghost use Rattle.esb_json.specs.declared.value.Json.{Json};
ghost use Rattle.esb_exports.specs.Keys.{has_star, base_of, trailer_of, fits, match_of, is_exact, chosen, Takes};
ghost use Rattle.esb_exports.specs.Targets.{exports_target, IsFile};
ghost use Rattle.esb_exports.specs.declared.outcome.Target.{Target};

/// A path takes the key that it is, or else a key with one star that it fits, of which none that it
/// fits is closer: none has a longer part up to the star, or one as long and is longer itself
/// (Node.js, "Modules: ECMAScript modules", PATTERN_KEY_COMPARE). It takes none where it is none and
/// fits none.
pub fn chosen_keys()
    ensures takes { (members : List (List ℕ × Json)) (path : List ℕ) (member : List ℕ × Json) → chosen members path ≡ Some member → Takes members path member }
    ensures none { (members : List (List ℕ × Json)) (path : List ℕ) → chosen members path ≡ None → All (λ member. (is_exact member.0 path || fits member.0 path) ≡ false) members }
{}

/// A path that fits a key is the key with the match in place of its star, and the match isn't empty.
/// Every such path fits.
pub fn matches()
    ensures key { (key path : List ℕ) → IsTrue (fits key path) → key ≡ base_of key ++ (42 ∷ trailer_of key) }
    ensures path { (key path : List ℕ) → IsTrue (fits key path) → path ≡ base_of key ++ (match_of key path ++ trailer_of key) }
    ensures something { (key path : List ℕ) → IsTrue (fits key path) → match_of key path ≢ [] }
    ensures fits { (base matched trailer : List ℕ) → has_star base ≡ false → has_star trailer ≡ false → matched ≢ [] → IsTrue (fits (base ++ (42 ∷ trailer)) (base ++ (matched ++ trailer))) }
    ensures matched { (base matched trailer : List ℕ) → has_star base ≡ false → has_star trailer ≡ false → match_of (base ++ (42 ∷ trailer)) (base ++ (matched ++ trailer)) ≡ matched }
{}

/// Whatever `exports` say, they lead to no other package, but to a file by a path that begins with
/// `./`.
pub fn exported_files()
    ensures { (exports : Json) (subpath : List ℕ) (conditions : List (List ℕ)) (target : Target) → exports_target exports subpath conditions ≡ Ok target → IsFile target }
{}
