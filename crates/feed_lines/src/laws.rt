//! Laws of the texts. These functions do nothing: what they ensure is proved of the definitions
//! alone.

ghost use Rattle.std.specs.Prelude.{◌≡◌, ℕ, List, [], ◌∷◌, ◌++◌, reverse};
ghost use Rattle.feed_lines.specs.Texts.{texts_after};

/// The texts of a list with an item more are the texts before it, and the text of that item.
pub fn texts_grow_by_the_item<T>()
    ensures none { (text : List T → T → List ℕ) → texts_after text [] [] ≡ [] }
    ensures more { (text : List T → T → List ℕ) (xs : List T) (x : T)
        → texts_after text [] (xs ++ x ∷ []) ≡ texts_after text [] xs ++ text (reverse xs) x }
{}
