//! The laws of the operations and of writes: each is a function that does nothing and whose contract
//! is the law.
ghost use Rattle.std.specs.Prelude.{◌++◌, ℕ, List, [], Option};
ghost use Rattle.std.specs.Io.KnownBytes.{Appends};
ghost use Rattle.hesc_specs.specs.Text.Beginning.{AppendsBeginning};

pub use hesc_core::laws::{
    canonical_bodies, canonical_body, different_encodings, different_texts, joined_bodies,
    joined_pieces, joined_text_pieces, joined_texts, plain_string_encoding,
    references_undo_encoders, references_undo_unquoted_encoder, repeated_body, same_bodies,
    same_style_strings, string_decoders_undo_encoders, string_round_trip,
};

/// Writes join: by two of them, one after the other, the first bytes went out and then the second
/// ones. Where one has a fault, a beginning of both went out.
///
/// For instance where `<li>` went out and then `a&` of `a&amp;`, a beginning of `<li>a&amp;` went out.
pub fn writes_law()
    ensures none { (a : Option (List ℕ)) → Appends a a [] }
    ensures both { (a b c : Option (List ℕ)) (first second : List ℕ) → Appends a b first
        → Appends b c second → Appends a c (first ++ second) }
    ensures whole { (a b : Option (List ℕ)) (text : List ℕ) → Appends a b text
        → AppendsBeginning a b text }
    ensures first { (a b : Option (List ℕ)) (first second : List ℕ) → AppendsBeginning a b first
        → AppendsBeginning a b (first ++ second) }
    ensures second { (a b c : Option (List ℕ)) (first second : List ℕ) → Appends a b first
        → AppendsBeginning b c second → AppendsBeginning a c (first ++ second) }
{}
