//! The laws of JSON in a page: each is a function that does nothing and whose contract is the law.
ghost use Rattle.std.specs.Prelude.{◌≡◌, ◌≢◌, All, Some};
ghost use Rattle.hesc_specs.specs.Text.Ascii.{less_than};
ghost use Rattle.json.specs.Json.{Json, document};
ghost use Rattle.html_json.specs.Encoding.{json_encoding};

/// No `<` stands in the encoding of a text, JSON or not.
///
/// For instance that of `</script>` is `\u003C/script>`.
pub fn no_less_law(text: &str)
    ensures { All (λ b. b ≢ less_than) (json_encoding text.now) }
{}

/// The encoding of JSON is JSON of the same value.
///
/// For instance `["</b>"]` and `["\u003C/b>"]` are the same array.
pub fn same_value_law(text: &str)
    ensures { (value : Json) → document text.now ≡ Some value
        → document (json_encoding text.now) ≡ Some value }
{}
