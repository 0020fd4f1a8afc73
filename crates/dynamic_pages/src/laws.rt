//! A law of the definitions.
ghost use Rattle.std.specs.Prelude.{◌≡◌, ℕ, ◌*◌, List, length};
ghost use Rattle.std.specs.List.{flat_map, range_with_len};
ghost use Rattle.dynamic_pages.specs.Pages.{page_of};

/// The pages of bytes, one after another, are the bytes, where these fill them.
pub fn pages_are_the_bytes()
    ensures { (bytes : List ℕ) (n : ℕ) → length bytes ≡ 256 * n → flat_map (page_of bytes) (range_with_len 0 n) ≡ bytes }
{}
