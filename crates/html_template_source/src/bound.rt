//! The texts of slots, by the numbers of their names.
ghost use Rattle.std.specs.Prelude.{◌≡◌, []};
ghost use Rattle.std.specs.Option.{unwrap_or};
ghost use Rattle.html_template_source.specs.Bindings.{bindings_of};
ghost use Rattle.html_template_source.specs.Places.{text_of_number};

use html_template::Texts;

/// The texts of slots, of whose names the numbers are known.
#[derive(Clone, Copy)]
pub(crate) struct Bound<'t> {
    /// The number of each slot's name.
    pub(crate) numbers: &'t [usize],
    pub(crate) bindings: &'t [(&'t str, &'t str)],
    /// The place of the binding of each name: without a list, its number.
    pub(crate) places: Option<&'t [usize]>,
}

impl<'t> Bound<'t> {
    // The text of the name of this number.
    #[inline(always)]
    fn text(&self, number: usize) -> &'t str
        ensures { result.now ≡ unwrap_or (text_of_number self.now.places
            (bindings_of self.now.bindings.now) number) [] }
    {
        let place = match self.places {
            None => number,
            Some(places) => match places.get(number) {
                Some(place) => *place,
                None => return "",
            },
        };
        match self.bindings.get(place) {
            Some((_, text)) => *text,
            None => "",
        }
    }
}

impl<'t> Texts for Bound<'t> {
    ghost use Rattle.html_template_source.specs.Places.{texts_by};

    ghost list = { λ bound. texts_by bound.places (bindings_of bound.bindings.now)
        bound.numbers.now };

    #[inline(always)]
    fn count(&self) -> usize {
        self.numbers.len()
    }

    #[inline(always)]
    fn take_first(&self) -> Option<(&str, Self)> {
        let [number, others @ ..] = self.numbers else {
            return None;
        };
        let more = Bound {
            numbers: others,
            bindings: self.bindings,
            places: self.places,
        };
        Some((self.text(*number), more))
    }
}
