//! The texts that fill the slots of a template.
ghost use Rattle.std.specs.Prelude.{◌≡◌, ◌∷◌, [], ℕ, List, IfNone, IfSome, length};

/// The texts of slots, in their order. A slice of texts has one for each.
pub trait Texts: Copy {
    ghost list: { Self → List (List ℕ) };

    /// How many texts there are.
    ///
    /// Of `a` and `b` it is 2.
    fn count(&self) -> usize
        ensures { result ≡ length (list self.now) };

    /// The first text and the others.
    ///
    /// Of `a` and `b` it is `a`, and the others are `b` alone.
    fn take_first(&self) -> Option<(&str, Self)>
        ensures first { IfSome result (λ r. list self.now ≡ r.0.now ∷ list r.1) }
        ensures none { IfNone result (list self.now ≡ []) };
}

impl<'t> Texts for &'t [&'t str] {
    ghost use Rattle.html_template.specs.Templates.{texts_of};

    ghost list = { λ texts. texts_of texts.now };

    #[inline(always)]
    fn count(&self) -> usize {
        self.len()
    }

    #[inline(always)]
    fn take_first(&self) -> Option<(&str, Self)> {
        match *self {
            [text, others @ ..] => Some((*text, others)),
            [] => None,
        }
    }
}
