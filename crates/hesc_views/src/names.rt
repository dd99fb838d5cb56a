//! The names by which a view asks for its partials.
ghost use Rattle.std.specs.Prelude.{◌≡◌, ◌==◌};
ghost use Rattle.std.specs.List.{after_last};
ghost use Rattle.hesc_specs.specs.Text.Ascii.{slash};
ghost use Rattle.hesc_views.specs.Names.{name_in};

/// The name of the partial in the file of this path: what stands behind the last `/`, up to its first
/// `.` there.
///
/// Of `partials/head.html` it is `head`.
pub fn partial_name(path: &str) -> &str
    ensures { result.now ≡ name_in path.now }
{
    let file = behind_last_slash(path);
    match file.split_once('.') {
        Some((name, _extension)) => name,
        None => file,
    }
}

fn behind_last_slash(path: &str) -> &str
    ensures { result.now ≡ after_last (λ b. b == slash) path.now }
{
    match path.rsplit_once('/') {
        Some((_folder, file)) => file,
        None => path,
    }
}
